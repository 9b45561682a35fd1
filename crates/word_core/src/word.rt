//! Words of bits.

ghost use Rattle.std.specs.Prelude.{◌≡◌, ◌≢◌, ◌+◌, ◌-◌, ◌*◌, ◌%◌, ◌^◌, ◌<◌, ◌≤◌, ◌↔◌, IsTrue, unsigned_abs};
ghost use Rattle.word_core.specs.Words.{any, all, odd, bits_of, word_not, word_neg, word_add, word_sub, word_mul, word_and, word_or, word_xor, word_xnor, word_div, word_rem, word_shl, word_shr, word_sshr, word_equal, word_less, word_extend, word_cut, word_join, word_part, signed_of};

/// A word of `width` bits: a number from 0 below 2 to the width. The width is from 1 to 128.
#[derive(Clone, Copy, Debug, PartialEq, Eq)]
pub struct Word {
    pub width: u8,
    pub bits: u128,
    ghost not_empty: { 1 ≤ width },
    ghost at_most: { width ≤ 128 },
    ghost fits: { bits < 2 ^ width },
}

// The greatest number of a width.
fn mask(width: u8) -> u128
    requires not_empty { 1 ≤ width }
    requires at_most { width ≤ 128 }
    ensures { result ≡ 2 ^ width - 1 }
{
    u128::MAX >> (128 - width)
}

// A number modulo 2 to the width.
fn low(bits: u128, width: u8) -> u128
    requires not_empty { 1 ≤ width }
    requires at_most { width ≤ 128 }
    ensures value { result ≡ bits % 2 ^ width }
    ensures fits { result < 2 ^ width }
{
    bits & mask(width)
}

impl Word {
    /// Whether the number is one of the width's, which is from 1 to 128.
    pub fn fits(width: u8, bits: u128) -> bool
        requires not_empty { 1 ≤ width }
        requires at_most { width ≤ 128 }
        ensures { IsTrue result ↔ (bits < 2 ^ width) }
    {
        bits <= mask(width)
    }

    /// The word of that width and number.
    pub fn make(width: u8, bits: u128) -> Word
        requires not_empty { 1 ≤ width }
        requires at_most { width ≤ 128 }
        requires fits { bits < 2 ^ width }
        ensures width { result.width ≡ width }
        ensures bits { result.bits ≡ bits }
    {
        Word { width, bits }
    }

    // A word of the same width.
    fn with_bits(self, bits: u128) -> Word
        requires { bits < 2 ^ self.width }
        ensures width { result.width ≡ self.width }
        ensures bits { result.bits ≡ bits }
    {
        Word {
            width: self.width,
            bits,
        }
    }

    /// Each bit negated.
    pub fn not(self) -> Word
        ensures width { result.width ≡ self.width }
        ensures bits { result.bits ≡ word_not self.width self.bits }
    {
        self.with_bits(mask(self.width) - self.bits)
    }

    /// The negative, modulo 2 to the width.
    pub fn neg(self) -> Word
        ensures width { result.width ≡ self.width }
        ensures bits { result.bits ≡ word_neg self.width self.bits }
    {
        if self.bits == 0 {
            return self;
        }
        self.with_bits(mask(self.width) - self.bits + 1)
    }

    /// The sum, modulo 2 to the width. The widths are equal.
    pub fn add(self, other: Word) -> Word
        requires { other.width ≡ self.width }
        ensures width { result.width ≡ self.width }
        ensures bits { result.bits ≡ word_add self.width self.bits other.bits }
    {
        self.with_bits(low(self.bits.wrapping_add(other.bits), self.width))
    }

    /// The difference, modulo 2 to the width. The widths are equal.
    pub fn sub(self, other: Word) -> Word
        requires { other.width ≡ self.width }
        ensures width { result.width ≡ self.width }
        ensures bits { result.bits ≡ word_sub self.width self.bits other.bits }
    {
        if other.bits <= self.bits {
            return self.with_bits(self.bits - other.bits);
        }
        self.with_bits(mask(self.width) - (other.bits - self.bits) + 1)
    }

    /// The product, modulo 2 to the width. The widths are equal.
    pub fn mul(self, other: Word) -> Word
        requires { other.width ≡ self.width }
        ensures width { result.width ≡ self.width }
        ensures bits { result.bits ≡ word_mul self.width self.bits other.bits }
    {
        self.with_bits(low(self.bits.wrapping_mul(other.bits), self.width))
    }

    /// The conjunction, bit by bit. The widths are equal.
    pub fn and(self, other: Word) -> Word
        requires { other.width ≡ self.width }
        ensures width { result.width ≡ self.width }
        ensures bits { result.bits ≡ word_and self.width self.bits other.bits }
    {
        self.with_bits(self.bits & other.bits)
    }

    /// The disjunction, bit by bit. The widths are equal.
    pub fn or(self, other: Word) -> Word
        requires { other.width ≡ self.width }
        ensures width { result.width ≡ self.width }
        ensures bits { result.bits ≡ word_or self.width self.bits other.bits }
    {
        self.with_bits(self.bits | other.bits)
    }

    /// One of the two alone, bit by bit. The widths are equal.
    pub fn xor(self, other: Word) -> Word
        requires { other.width ≡ self.width }
        ensures width { result.width ≡ self.width }
        ensures bits { result.bits ≡ word_xor self.width self.bits other.bits }
    {
        self.with_bits(self.bits ^ other.bits)
    }

    /// Both or none, bit by bit. The widths are equal.
    pub fn xnor(self, other: Word) -> Word
        requires { other.width ≡ self.width }
        ensures width { result.width ≡ self.width }
        ensures bits { result.bits ≡ word_xnor self.width self.bits other.bits }
    {
        self.xor(other).not()
    }

    // The signed value is below zero.
    fn is_negative(self) -> bool
        ensures { IsTrue result ↔ (2 ^ (self.width - 1) ≤ self.bits) }
    {
        self.bits >> (self.width - 1) == 1
    }

    // The signed value without its sign.
    fn magnitude(self) -> Word
        ensures width { result.width ≡ self.width }
        ensures bits { result.bits ≡ unsigned_abs (signed_of self.width self.bits) }
    {
        if self.is_negative() { self.neg() } else { self }
    }

    /// The quotient, rounded towards zero. The widths are equal, and `other` is not zero.
    /// The one quotient of signed values that has no word, of the least one by -1, is the least one.
    pub fn div(self, other: Word, signed: bool) -> Word
        requires widths { other.width ≡ self.width }
        requires not_zero { other.bits ≢ 0 }
        ensures width { result.width ≡ self.width }
        ensures bits { result.bits ≡ word_div self.width signed self.bits other.bits }
    {
        if !signed {
            return self.with_bits(self.bits / other.bits);
        }
        let quotient = self.with_bits(self.magnitude().bits / other.magnitude().bits);
        if self.is_negative() == other.is_negative() {
            quotient
        } else {
            quotient.neg()
        }
    }

    /// The remainder of the quotient; of signed values it has the sign of `self`. The widths are equal, and `other` is not zero.
    pub fn rem(self, other: Word, signed: bool) -> Word
        requires widths { other.width ≡ self.width }
        requires not_zero { other.bits ≢ 0 }
        ensures width { result.width ≡ self.width }
        ensures bits { result.bits ≡ word_rem self.width signed self.bits other.bits }
    {
        if !signed {
            return self.with_bits(self.bits % other.bits);
        }
        let remainder = self.with_bits(self.magnitude().bits % other.magnitude().bits);
        if self.is_negative() {
            remainder.neg()
        } else {
            remainder
        }
    }

    /// Shifted to the left by the number of `by`, which may have any width. Zero where that is the width or more.
    pub fn shl(self, by: Word) -> Word
        ensures width { result.width ≡ self.width }
        ensures bits { result.bits ≡ word_shl self.width self.bits by.bits }
    {
        if by.bits >= self.width as u128 {
            return self.with_bits(0);
        }
        self.with_bits(low(self.bits << by.bits, self.width))
    }

    /// Shifted to the right by the number of `by`, which may have any width. Zero where that is the width or more.
    pub fn shr(self, by: Word) -> Word
        ensures width { result.width ≡ self.width }
        ensures bits { result.bits ≡ word_shr self.width self.bits by.bits }
    {
        if by.bits >= self.width as u128 {
            return self.with_bits(0);
        }
        self.with_bits(self.bits >> by.bits)
    }

    /// Shifted to the right as a signed value, by the number of `by`, which may have any width: the top bit is moved in.
    pub fn sshr(self, by: Word) -> Word
        ensures width { result.width ≡ self.width }
        ensures bits { result.bits ≡ word_sshr self.width self.bits by.bits }
    {
        if self.is_negative() {
            self.not().shr(by).not()
        } else {
            self.shr(by)
        }
    }

    /// Whether the words are equal. The widths are equal.
    pub fn equal(self, other: Word) -> bool
        requires { other.width ≡ self.width }
        ensures { result ≡ word_equal self.bits other.bits }
    {
        self.bits == other.bits
    }

    /// Whether this word is below the other, as signed values or as numbers. The widths are equal.
    pub fn less(self, other: Word, signed: bool) -> bool
        requires { other.width ≡ self.width }
        ensures { result ≡ word_less self.width signed self.bits other.bits }
    {
        if signed && self.is_negative() != other.is_negative() {
            return self.is_negative();
        }
        self.bits < other.bits
    }

    /// Whether some bit is 1.
    pub fn any(self) -> bool
        ensures { result ≡ any (bits_of self.width self.bits) }
    {
        self.bits != 0
    }

    /// Whether each bit is 1.
    pub fn all(self) -> bool
        ensures { result ≡ all (bits_of self.width self.bits) }
    {
        self.bits == mask(self.width)
    }

    /// Whether an odd number of bits is 1.
    pub fn odd(self) -> bool
        ensures { result ≡ odd (bits_of self.width self.bits) }
    {
        self.bits.count_ones() % 2 == 1
    }

    /// The word at a width that is not narrower and at most 128, with the same signed value or the same number.
    pub fn extend(self, width: u8, signed: bool) -> Word
        requires not_narrower { self.width ≤ width }
        requires at_most { width ≤ 128 }
        ensures width { result.width ≡ width }
        ensures bits { result.bits ≡ word_extend self.width width signed self.bits }
    {
        if signed && self.is_negative() {
            return Word {
                width,
                bits: mask(width) - (mask(self.width) - self.bits),
            };
        }
        Word {
            width,
            bits: self.bits,
        }
    }

    /// The low bits, as many as the width, which is not wider and at least 1.
    pub fn cut(self, width: u8) -> Word
        requires not_empty { 1 ≤ width }
        requires not_wider { width ≤ self.width }
        ensures width { result.width ≡ width }
        ensures bits { result.bits ≡ word_cut width self.bits }
    {
        Word {
            width,
            bits: low(self.bits, width),
        }
    }

    /// The two words side by side, `low` below. Their widths together are at most 128.
    pub fn join(self, low: Word) -> Word
        requires { self.width + low.width ≤ 128 }
        ensures width { result.width ≡ self.width + low.width }
        ensures bits { result.bits ≡ word_join low.width self.bits low.bits }
    {
        Word {
            width: self.width + low.width,
            bits: (self.bits << low.width) + low.bits,
        }
    }

    /// The bits from bit `low` on, as many as the width, which is at least 1. They lie inside.
    pub fn part(self, low: u8, width: u8) -> Word
        requires not_empty { 1 ≤ width }
        requires within { low + width ≤ self.width }
        ensures width { result.width ≡ width }
        ensures bits { result.bits ≡ word_part low width self.bits }
    {
        Word {
            width,
            bits: crate::word::low(self.bits >> low, width),
        }
    }
}
