// Numbers as the fields of a ticket have them.
ghost use Rattle.std.specs.Prelude.{◌≡◌, ◌<◌, ◌≤◌, length, IfSome, if◌then◌else◌, Some, None};
ghost use Rattle.std.specs.Str.{all_ascii_digits};
ghost use Rattle.fields.specs.Numbers.{number_after, number as written_number};

// The number that digits write; none where another byte is among them. A `for` with `?`, so that the bound of the sum is an invariant.
fn digits(field: &[u8]) -> Option<u32>
    requires { length field.now ≤ 7 }
    ensures value { result ≡ (if all_ascii_digits field.now then Some (number_after 0 field.now) else None) }
    ensures bound { IfSome result (λ n. n < 10000000) }
{
    let mut sum: u32 = 0;
    for b in field {
        sum = sum * 10 + char::from(*b).to_digit(10)?;
    }
    Some(sum)
}

// One to seven digits, with no 0 before others.
pub fn number(field: &[u8]) -> Option<u32>
    ensures value { result ≡ written_number field.now }
    ensures bound { IfSome result (λ n. n < 10000000) }
{
    let n = field.len();
    if n == 0 || n > 7 {
        return None;
    }
    if field[0] == b'0' && n > 1 {
        return None;
    }
    digits(field)
}
