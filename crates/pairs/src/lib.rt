// A table as bytes, two a minute and the low byte first: how it travels to and from the bench's C program. Bytes
// go by index, since each turn reads or writes two of them for one minute, and of what is written through
// `iter_mut().zip(..)` a proof would know nothing.
#![tactic(auto)]

ghost use Rattle.std.specs.Prelude.{◌≡◌, ◌++◌, ◌*◌, ◌≤◌, length, drop};
ghost use Rattle.counted.specs.Values.{values};
ghost use Rattle.pairs.specs.Pairs.{bytes_of, table_of_lem};

use counted::Counted;

// The minutes of a table that is handed in as bytes, if there are at most N. Bytes that leave half a minute over, or
// are more, have none: a sheet's table has at least one, so that such a table is as one of another length.
pub fn table_of<const N: usize>(bytes: &[u8]) -> Counted<u16, N>
    ensures { values result ≡ table_of_lem N bytes.now }
{
    let mut table = Counted::new([0; N]);
    if bytes.len() % 2 == 0 && bytes.len() / 2 <= N {
        for i in 0..bytes.len() / 2 {
            table.push(u16::from_le_bytes([bytes[2 * i], bytes[2 * i + 1]]));
        }
    }
    table
}

// The bytes of the minutes, into the first bytes.
pub fn pack(table: &[u16], bytes: &mut [u8])
    requires { length table.now * 2 ≤ length bytes.old }
    ensures { bytes.new ≡ bytes_of table.now
        ++ drop (2 * length table.now) bytes.old }
{
    for (i, minute) in table.iter().enumerate() {
        let [low, high] = minute.to_le_bytes();
        bytes[2 * i] = low;
        bytes[2 * i + 1] = high;
    }
}
