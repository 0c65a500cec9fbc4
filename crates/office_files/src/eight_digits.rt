// Reading the digits at the front of eight bytes at once: all of them are in one word.
ghost use Rattle.std.specs.Prelude.{◌≡◌, ℕ, ◌-◌, ◌*◌, ◌%◌, ◌^◌, ◌<◌, ◌≤◌, List, length, take, nat_le};
ghost use lib.Lanes.{number_l};
ghost use Rattle.core.specs.Dec2flt.Digits.{IsEightBytes, IsEightDigits};
ghost use Rattle.core.specs.Float.Numeral.{digits_len};
ghost use Rattle.core.specs.Int.Digits.{number_from_digits};
ghost use Rattle.core.specs.Slice.Scan.{digits_from, flag_word, little_endian};
ghost use Rattle.core.specs.Str.Parse.{digits_value};
ghost use Rattle.office_files.specs.Digits.{HasDigits, NoDigitAt};

/// Returns the value of the digits at the front of the first eight bytes, and how many they are.
#[inline(always)]
pub(crate) fn eight_digits(text: &[u8]) -> (u32, usize)
    requires { 8 ≤ length text.now }
    ensures front { HasDigits (take 8 text.now) result.0 result.1 }
    ensures whole { NoDigitAt (take 8 text.now) result.1 }
{
    let (count, value) = up_to_eight(word_of_eight(text));
    (value as u32, count)
}

// Returns the first eight bytes as a word, the first of them the lowest.
#[inline(always)]
fn word_of_eight(text: &[u8]) -> u64
    requires { 8 ≤ length text.now }
    ensures { result ≡ little_endian text.now 0 }
{
    u64::from_le_bytes([
        text[0], text[1], text[2], text[3], text[4], text[5], text[6], text[7],
    ])
}

// Returns how many of the word's bytes are digits from the lowest on, and their value.
#[inline(always)]
fn up_to_eight(word: u64) -> (usize, u64)
    ensures most { result.0 ≤ 8 }
    ensures read { (xs : List ℕ) → IsEightBytes xs → word ≡ number_l 256 xs
        → (result.0 ≡ digits_len xs) × (result.1 ≡ digits_value 10 (take result.0 xs)) }
{
    let lanes = word ^ 0x3030_3030_3030_3030;
    let others = flags_from_ten(lanes);
    if others == 0 {
        return (8, value_of_eight(lanes));
    }
    let count = others.trailing_zeros() / 8;
    (count as usize, value_of_eight(keep_first(lanes, count)))
}

// Returns the high bit of each byte that is 10 or more. No sum carries into the next byte.
#[inline(always)]
fn flags_from_ten(word: u64) -> u64
    ensures { (byte : ℕ → ℕ) → ((k : ℕ) → byte k < 256) → word ≡ digits_from byte 0 8
        → result ≡ flag_word (λ k. nat_le 10 (byte k)) }
{
    ((word & 0x7f7f_7f7f_7f7f_7f7f) + 0x7676_7676_7676_7676 | word) & 0x8080_8080_8080_8080
}

// Returns the word with its first `count` bytes moved up to the end; the others are dropped.
#[inline(always)]
fn keep_first(word: u64, count: u32) -> u64
    requires { count < 8 }
    ensures { result ≡ word * 256 ^ (8 - count) % 2 ^ 64 }
{
    word << (56 - 8 * count) << 8 // no shift by 64 is defined
}

// Returns the value of eight digits, the first of them in the lowest byte. Each step joins
// neighbours, and no lane overflows: the masks keep a lane below 16, 256 and 65,536.
#[inline(always)]
fn value_of_eight(word: u64) -> u64
    ensures { (ds : List ℕ) → IsEightDigits ds → word ≡ number_l 256 ds
        → result ≡ number_from_digits 10 ds }
{
    let digits = word & 0x0f0f_0f0f_0f0f_0f0f;
    let pairs = (digits * 10 + (digits >> 8)) & 0x00ff_00ff_00ff_00ff;
    let fours = (pairs * 100 + (pairs >> 16)) & 0x0000_ffff_0000_ffff;
    (fours * 10_000 + (fours >> 32)) & 0xffff_ffff
}
