//! The digits of a number, put behind bytes that have room for them.

ghost use Rattle.std.specs.Prelude.{◌≡◌, ◌+◌, ◌/◌, ◌%◌, ◌<◌, ◌≤◌, [], ◌∷◌, ◌++◌, length, vec_len, vec_capacity, decimal};

/// Appends the number in decimal to bytes that have room for the digits of any number.
#[tactic(auto, using(crate::proofs::Decimals::length_most))]
#[inline(always)]
pub fn push_number_reserved(out: &mut Vec<u8>, value: u64)
    requires { vec_len out.old + 20 ≤ vec_capacity out.old }
    ensures appended { out.new.items ≡ out.old.items ++ decimal value }
    ensures within { vec_len out.new ≤ vec_len out.old + 20 }
    ensures capacity { vec_capacity out.new ≡ vec_capacity out.old }
{
    if value < 10_000 {
        push_four(out, value);
    } else {
        push_digits(out, value);
    }
}

/// Appends the digits, from the most significant on.
#[tactic(auto, using(crate::proofs::Decimals::append_four, crate::proofs::Decimals::length_four))]
fn push_digits(out: &mut Vec<u8>, number: u64)
    requires { vec_len out.old + length (decimal number) ≤ vec_capacity out.old }
    ensures appended { out.new.items ≡ out.old.items ++ decimal number }
    ensures len { vec_len out.new ≡ vec_len out.old + length (decimal number) }
    ensures capacity { vec_capacity out.new ≡ vec_capacity out.old }
{
    if number < 10_000 {
        push_four(out, number);
        return;
    }
    push_digits(out, number / 10_000);
    push_pair(out, number % 10_000 / 100);
    push_pair(out, number % 100);
}

/// Appends the at most four digits of a number below 10,000.
#[tactic(auto, using(crate::proofs::Decimals::append_pair, crate::proofs::Decimals::length_pair))]
#[inline(always)]
fn push_four(out: &mut Vec<u8>, number: u64)
    requires below { number < 10000 }
    requires room { vec_len out.old + length (decimal number) ≤ vec_capacity out.old }
    ensures appended { out.new.items ≡ out.old.items ++ decimal number }
    ensures len { vec_len out.new ≡ vec_len out.old + length (decimal number) }
    ensures capacity { vec_capacity out.new ≡ vec_capacity out.old }
{
    if number < 100 {
        push_two(out, number);
        return;
    }
    push_two(out, number / 100);
    push_pair(out, number % 100);
}

/// Appends the one or two digits of a number below 100.
#[tactic(auto, using(crate::proofs::Decimals::decimal_one, crate::proofs::Decimals::decimal_two, crate::proofs::Decimals::length_one, crate::proofs::Decimals::length_two))]
fn push_two(out: &mut Vec<u8>, number: u64)
    requires below { number < 100 }
    requires room { vec_len out.old + length (decimal number) ≤ vec_capacity out.old }
    ensures appended { out.new.items ≡ out.old.items ++ decimal number }
    ensures len { vec_len out.new ≡ vec_len out.old + length (decimal number) }
    ensures capacity { vec_capacity out.new ≡ vec_capacity out.old }
{
    if number < 10 {
        out.push_reserved(b'0' + number as u8);
        return;
    }
    push_pair(out, number);
}

/// The two digits of each number below 100, one number after the other.
static PAIRS: [u8; 200] =
    *b"00010203040506070809101112131415161718192021222324252627282930313233343536373839404142434445464748495051525354555657585960616263646566676869707172737475767778798081828384858687888990919293949596979899";

/// Appends two digits, also where the first is a zero.
fn push_pair(out: &mut Vec<u8>, pair: u64)
    requires below { pair < 100 }
    requires room { vec_len out.old + 2 ≤ vec_capacity out.old }
    ensures appended { out.new.items ≡ out.old.items ++ (48 + pair / 10) ∷ (48 + pair % 10) ∷ [] }
    ensures len { vec_len out.new ≡ vec_len out.old + 2 }
    ensures capacity { vec_capacity out.new ≡ vec_capacity out.old }
{
    let at = pair as usize * 2;
    out.push_reserved(PAIRS[at]);
    out.push_reserved(PAIRS[at + 1]);
}
