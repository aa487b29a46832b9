//! A short list of bytes in place.
ghost use Rattle.std.specs.Prelude.{◌≡◌, ℕ, ◌+◌, ◌-◌, ◌<◌, ◌≤◌, List, length, take, Option, Some, nat_eq, refl, []};
ghost use Rattle.std.specs.Ordering.{nat_cmp};
ghost use Rattle.std.specs.Cmp.{partial_equiv_from_equiv};
ghost use Rattle.std.specs.Cmp.Lexicographic.{pointwise, slice_cmp, nat_list_eq_equiv, nat_list_cmp_total, texts_po, texts_ties};

use std::cmp::Ordering;
use std::marker::Model;

/// At most `N` bytes, which lie in the value itself. Contracts see the list of them.
#[derive(Clone, Copy)]
pub struct ShortText<const N: usize> {
    buf: [u8; N],
    len: usize,
}

impl<const N: usize> Model for ShortText<N> {
    ghost use Rattle.std.specs.Prelude.{◌≡◌, ℕ, ◌-◌, ◌≤◌, ◌++◌, List, length, take, drop, replicate};
    ghost use Rattle.std.proofs.Common.{◌∙◌, sym, ap, length-take-le};
    ghost use Rattle.cm_base.specs.Padded.{padded, fits};

    ghost Value = { List ℕ };

    ghost view = { λ s. take s.len s.buf };

    ghost invariant = { λ s. (s.len ≤ N) × (length s.buf ≡ N) × (drop s.len s.buf ≡ replicate (N - s.len) 0) };

    ghost inverse = { λ xs. record { buf = xs ++ replicate (N - length xs) 0; len = length xs } };

    ghost inverse_ok = { λ s h i. record {
      buf = padded N s.buf s.len (fits s.len N (length s.buf) h.0 h.1) h.2 i;
      len = length-take-le s.len s.buf (fits s.len N (length s.buf) h.0 h.1) i;
    } };
}

impl<const N: usize> ShortText<N> {
    pub fn new() -> ShortText<N>
        ensures { result ≡ [] }
    {
        ShortText {
            buf: [0; N],
            len: 0,
        }
    }

    pub fn as_bytes(&self) -> &[u8]
        ensures value { result.now ≡ self.now }
        ensures fits { length result.now ≤ N }
    {
        &self.buf[..self.len]
    }

    pub fn from_slice(bytes: &[u8]) -> ShortText<N>
        requires { length bytes.now ≤ N }
        ensures { result ≡ bytes.now }
    {
        let mut buf = [0; N];
        buf[..bytes.len()].copy_from_slice(bytes);
        ShortText {
            buf,
            len: bytes.len(),
        }
    }
}

impl<const N: usize> PartialEq for ShortText<N> {
    ghost eq = { λ s t. pointwise nat_eq s t };

    ghost laws = { partial_equiv_from_equiv nat_list_eq_equiv };

    fn eq(&self, other: &Self) -> bool {
        self.as_bytes() == other.as_bytes()
    }
}

impl<const N: usize> Eq for ShortText<N> {
    ghost laws = { nat_list_eq_equiv };
}

impl<const N: usize> PartialOrd for ShortText<N> {
    ghost partial_cmp = { λ s t. Some (slice_cmp nat_cmp s t) };

    ghost laws = { texts_po };

    fn partial_cmp(&self, other: &Self) -> Option<Ordering> {
        Some(self.cmp(other))
    }
}

impl<const N: usize> Ord for ShortText<N> {
    ghost cmp = { slice_cmp nat_cmp };

    ghost total = { nat_list_cmp_total };

    ghost matches_partial_cmp = { λ s t. refl };

    ghost matches_eq = { texts_ties };

    fn cmp(&self, other: &Self) -> Ordering {
        self.as_bytes().cmp(&other.as_bytes())
    }
}
