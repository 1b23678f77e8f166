//! Numbers that are kept for each of 64 addresses; 0 stands for none, so that every test is one comparison.

ghost use Rattle.std.specs.Prelude.{◌≡◌, slice_index, slice_set};

/// The number of this address, and 0 where the address is none of them.
pub(crate) fn number_at(table: &[u16; 64], address: u16) -> u16
    ensures { result ≡ slice_index table.now address }
{
    table.get(address as usize).copied().unwrap_or(0)
}

/// The address has this number from now on, if it is one of them.
pub(crate) fn set_number(table: &mut [u16; 64], address: u16, number: u16)
    ensures { table.new ≡ slice_set table.old address number }
{
    // No `if let` over `get_mut`: that the table then has the number is not proved so.
    if address < 64 {
        table[address as usize] = number;
    }
}
