//! The eight groups of an IPv6 address.
ghost use Rattle.std.specs.Prelude.{◌≡◌, ◌≤◌, ◌+◌, ◌-◌, ◌++◌, length, replicate};
ghost use Rattle.cm_net.specs.Numbers.{number6};

/// Eight groups: these, as many zeros as are wanted, and those.
pub(crate) fn spread(left: &[u16], right: &[u16]) -> [u16; 8]
    requires { length left.now + length right.now ≤ 8 }
    ensures { result ≡ left.now ++ (replicate (8 - (length left.now + length right.now)) 0 ++ right.now) }
{
    let mut groups = [0; 8];
    groups[..left.len()].copy_from_slice(left);
    groups[8 - right.len()..].copy_from_slice(right);
    groups
}

/// The number that eight groups make, the first one highest.
pub(crate) fn number_of(groups: &[u16; 8]) -> u128
    ensures { result ≡ number6 groups.now }
{
    let [a, b, c, d, e, f, g, h] = *groups;
    let high = u128::from(a) * 65536 + u128::from(b);
    let high = (high * 65536 + u128::from(c)) * 65536 + u128::from(d);
    let high = (high * 65536 + u128::from(e)) * 65536 + u128::from(f);
    (high * 65536 + u128::from(g)) * 65536 + u128::from(h)
}
