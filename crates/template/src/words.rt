// Words, and words with a number behind them, written over bytes from a place on. Each answers the place behind what it wrote.
ghost use Rattle.std.specs.Prelude.{◌≡◌, ◌++◌, ◌+◌, ◌≤◌, length};
ghost use Rattle.decimal.specs.Decimal.{decimal, most_digits};
ghost use Rattle.decimal.specs.Writing.{Stands};

pub fn put_text(bytes: &mut [u8], at: usize, text: &[u8]) -> usize
    requires { at + length text.now ≤ length bytes.old }
    ensures { Stands (length text.now) text.now bytes.old at bytes.new result }
{
    let mut place = at;
    for byte in text {
        bytes[place] = *byte;
        place += 1;
    }
    place
}

pub fn put_figure(bytes: &mut [u8], at: usize, word: &[u8], n: u64) -> usize
    requires { at + (length word.now + most_digits) ≤ length bytes.old }
    ensures { Stands (length word.now + most_digits) (word.now ++ decimal n) bytes.old at bytes.new result }
{
    let behind = put_text(bytes, at, word);
    decimal::put_decimal(bytes, behind, n)
}
