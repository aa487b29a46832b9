//! The options of a group.
ghost use Rattle.std.specs.Prelude.{◌≡◌, true, false};

/// What the clients of a group may use.
#[derive(Clone, Copy, Debug, PartialEq, Eq)]
pub struct Options {
    /// Peers give content.
    pub peers: bool,
    /// Of peers, those in the client's subnet alone.
    pub same_subnet_only: bool,
    /// Points in the client's subnet come before peers there.
    pub prefer_points: bool,
}

impl Default for Options {
    ghost is_default = { λ options. options ≡ record { peers = true; same_subnet_only = false; prefer_points = false } };

    /// Peers are allowed, from any subnet, and come before points.
    fn default() -> Options
        ensures { result ≡ record { peers = true; same_subnet_only = false; prefer_points = false } }
    {
        Options {
            peers: true,
            same_subnet_only: false,
            prefer_points: false,
        }
    }
}
