//! Numbers in decimal, with no leading zero.
ghost use Rattle.std.specs.Prelude.{◌≡◌, ◌+◌, ◌≤◌, length, decimal};
ghost use Rattle.spelling.specs.Puts.{Put};

// How many digits `number` has. No usize has more than 20.
pub(crate) fn digit_count(number: usize) -> usize
    ensures value { result ≡ length (decimal number) }
    ensures bound { result ≤ 20 }
{
    let mut rest = number;
    let mut count = 1;
    while rest >= 10 {
        rest /= 10;
        count += 1;
    }
    count
}

// Puts the digits of `number` from `at` on, and answers where they end. The last digit is the first to be
// known, so they are put from the end.
pub(crate) fn put_decimal(number: usize, buffer: &mut [u8], at: usize) -> usize
    requires { at + length (decimal number) ≤ length buffer.old }
    ensures { Put buffer.old at (decimal number) buffer.new result }
{
    let end = at + digit_count(number);
    let mut rest = number;
    let mut place = end;
    while rest >= 10 {
        place -= 1;
        buffer[place] = b'0' + (rest % 10) as u8;
        rest /= 10;
    }
    buffer[at] = b'0' + rest as u8;
    end
}
