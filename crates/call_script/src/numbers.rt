ghost use Rattle.std.specs.Prelude.{◌≡◌, ◌<◌, ◌^◌, IfSome, pos, unsigned_abs, option_map};
ghost use Rattle.call_script.specs.Numbers.{is_number, number_if_below, index_of, size_of};
ghost use Rattle.call_script.specs.Times.{amount_of};

/// The most digits of a time's number.
const MOST_DIGITS: usize = 24;

/// Whether a text is a decimal number without leading zeros.
pub fn is_number(text: &str) -> bool
    ensures { result ≡ is_number text.now }
{
    if text == "0" {
        return true;
    }
    let digits = text.as_bytes();
    match digits {
        [first, ..] if *first > b'0' => digits.iter().all(|digit| digit.is_ascii_digit()),
        _ => false,
    }
}

/// The number of a buffer or of a blob: below `2^32`.
pub fn read_index(text: &str) -> Option<u32>
    ensures { result ≡ index_of text.now }
{
    if !is_number(text) {
        return None;
    }
    text.parse::<u32>().ok()
}

fn below_limit(size: u64) -> Option<u64>
    ensures { result ≡ number_if_below (2 ^ 63) size }
{
    if size < 1 << 63 { Some(size) } else { None }
}

/// A first byte, or a length in bytes: below `2^63`.
pub fn read_size(text: &str) -> Option<u64>
    ensures { result ≡ size_of text.now }
{
    if !is_number(text) {
        return None;
    }
    match text.parse::<u64>() {
        Ok(size) => below_limit(size),
        Err(_) => None,
    }
}

/// A number of at most 24 digits.
pub fn read_amount(text: &str) -> Option<i128>
    ensures value { result ≡ option_map (λ n. pos n) (amount_of text.now) }
    ensures small { IfSome result (λ n. unsigned_abs n < 10 ^ 24) }
{
    if text.len() > MOST_DIGITS {
        return None;
    }
    if !is_number(text) {
        return None;
    }
    text.parse::<i128>().ok()
}
