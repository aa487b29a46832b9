//! Numbers of groups, and addresses, in rising order.
ghost use Rattle.std.specs.Prelude.{◌≤◌, length};
ghost use Rattle.cm_net.specs.Groups.{IsRisingOf};

/// The addresses, each once, rising.
pub(crate) fn rising_addresses(addresses: Vec<u128>) -> Vec<u128>
    ensures those { IsRisingOf addresses.items result.items }
    ensures few { length result.items ≤ length addresses.items }
{
    let mut addresses = addresses;
    addresses.sort_unstable();
    addresses.dedup();
    addresses
}

/// The numbers, each once, rising.
pub fn rising(numbers: Vec<u16>) -> Vec<u16>
    ensures { IsRisingOf numbers.items result.items }
{
    let mut numbers = numbers;
    numbers.sort_unstable();
    numbers.dedup();
    numbers
}
