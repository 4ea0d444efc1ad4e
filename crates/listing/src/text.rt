// A writer of text: it puts each text behind the one before, in an area of bytes that is lent. It is for this crate, for `checker`
// and for `report`, which have made room.
ghost use Rattle.std.specs.Prelude.{◌≡◌, [], ◌∷◌, ◌≤◌, ◌<◌, length, take};
ghost use Rattle.listing.specs.Listing.{decimal, weight_text, name_text, names_text, term_text, terms_text};
ghost use Rattle.listing.specs.Writer.{HasRoom, Wrote};
ghost use Rattle.listing.specs.Writing.{padded, starred};

use std::marker::Model;

// An area, and the place in it behind what stands.
#[derive(Drop)]
pub struct Writer<'a> {
    pub out: &'a mut [u8],
    pub at: usize,
}

impl<'a> Writer<'a> {
    // A text that is there.
    pub fn put_bytes(&mut self, text: &[u8])
        requires { HasRoom self.old text.now }
        ensures { Wrote self.old self.new text.now }
    {
        let end = self.at + text.len();
        self.out[self.at..end].copy_from_slice(text);
        self.at = end;
    }

    // One byte.
    pub fn put_byte(&mut self, byte: u8)
        requires { HasRoom self.old (byte ∷ []) }
        ensures { Wrote self.old self.new (byte ∷ []) }
    {
        self.out[self.at] = byte;
        self.at += 1;
    }

    // A number of one or two digits in decimal. It calls nothing that calls itself, so that it can stand in the loop over a term.
    #[tactic(auto, using(crate::proofs::Chains::wrote_as, crate::proofs::Decimals::one_digit, crate::proofs::Decimals::two_digits_length))]
    fn put_small(&mut self, n: u8)
        requires digits { n < 100 }
        requires room { HasRoom self.old (decimal n) }
        ensures { Wrote self.old self.new (decimal n) }
    {
        if n < 10 {
            return self.put_byte(b'0' + n);
        }
        self.put_byte(b'0' + n / 10);
        self.put_byte(b'0' + n % 10);
    }

    // A number in decimal: the digits in front of the last one first.
    #[tactic(auto, using(crate::proofs::Decimals::last_digit_length))]
    pub fn put_decimal(&mut self, n: u64)
        requires { HasRoom self.old (decimal n) }
        ensures { Wrote self.old self.new (decimal n) }
    {
        if n < 100 {
            return self.put_small(n as u8);
        }
        self.put_decimal(n / 10);
        self.put_byte(b'0' + (n % 10) as u8);
    }

    // A weight in decimal, with a minus sign in front if it is negative.
    pub fn put_weight(&mut self, weight: i64)
        requires { HasRoom self.old (weight_text weight) }
        ensures { Wrote self.old self.new (weight_text weight) }
    {
        if weight < 0 {
            self.put_byte(b'-');
        }
        self.put_decimal(weight.unsigned_abs());
    }

    // The name of a variable, behind an asterisk unless it is the first of its term.
    fn put_name(&mut self, first: bool, i: u32)
        requires digits { i < 100 }
        requires room { HasRoom self.old (starred first (name_text i)) }
        ensures { Wrote self.old self.new (starred first (name_text i)) }
    {
        if !first {
            self.put_byte(b'*');
        }
        self.put_byte(b'x');
        self.put_small(i as u8);
    }

    // The variables of a term that is not 1, ascending, with an asterisk between each two: each turn goes to the next one in
    // the mask, by as many places as there are zeros, so it is no loop over a range.
    fn put_names(&mut self, mask: u32)
        requires { HasRoom self.old (names_text mask) }
        ensures { Wrote self.old self.new (names_text mask) }
    {
        let mut first = true;
        let mut rest = mask;
        let mut i: u32 = 0;
        while rest != 0 {
            let zeros = rest.trailing_zeros();
            i += zeros + 1;
            self.put_name(first, i);
            first = false;
            rest = (rest >> zeros) / 2;
        }
    }

    // A term: its variables, or the digit 1.
    #[tactic(auto, using(crate::proofs::Chains::wrote_as, crate::proofs::Names::text_of_one, crate::proofs::Names::text_of_names))]
    fn put_term(&mut self, mask: u32)
        requires { HasRoom self.old (term_text mask) }
        ensures { Wrote self.old self.new (term_text mask) }
    {
        if mask == 0 {
            return self.put_byte(b'1');
        }
        self.put_names(mask);
    }

    // The terms of a polynomial, with a plus sign between each two. A writer of its own puts them: its place is in nobody else's
    // sight, so it need not go to memory with each byte.
    pub fn put_terms(&mut self, f: &[u32])
        requires { HasRoom self.old (terms_text f.now) }
        ensures { Wrote self.old self.new (terms_text f.now) }
    {
        let mut terms = Writer {
            out: &mut *self.out,
            at: self.at,
        };
        for (i, &term) in f.iter().enumerate() {
            if 0 < i {
                terms.put_bytes(b" + ");
            }
            terms.put_term(term);
        }
        self.at = terms.at;
    }
}

// A text by value: the front of its bytes, whose room is fixed, since no memory is asked for. The bytes behind it are zeros.
#[derive(Clone, Copy)]
pub struct Text<const N: usize> {
    bytes: [u8; N],
    size: usize,
}

impl<const N: usize> Model for Text<N> {
    ghost use Rattle.std.specs.Prelude.{◌≡◌, List, ℕ, ◌≤◌, length, take};
    ghost use Rattle.std.proofs.Common.{arith, length-take-le};
    ghost use Rattle.listing.specs.Writing.{padded};

    ghost Value = { List ℕ };

    ghost view = { λ text. take text.size text.bytes };

    ghost invariant = { λ text. (text.size ≤ N) × (length text.bytes ≡ N) × (padded N (take text.size text.bytes) ≡ text.bytes) };

    ghost inverse = { λ s. record { bytes = padded N s; size = length s } };

    ghost inverse_ok = { λ text h i. record { bytes = h.2 i; size = length-take-le text.size text.bytes (omega (arith, h.0, h.1)) i } };
}

impl<const N: usize> Text<N> {
    // The first bytes of an area. It is for the crates `report` and `worked_examples`, which have written no more than there is room for.
    pub fn new(bytes: [u8; N], size: usize) -> Self
        requires { size ≤ N }
        ensures { result ≡ take size bytes.entry }
    {
        let mut bytes = bytes;
        let all = &mut bytes[..];
        all[size..].fill(0);
        Text { bytes, size }
    }

    // A copy of a text that is there. It is for the crate `report`, whose texts fit.
    pub fn copy_of(text: &[u8]) -> Self
        requires { length text.now ≤ N }
        ensures { result ≡ text.now }
    {
        let mut bytes = [0u8; N];
        bytes[..text.len()].copy_from_slice(text);
        Text {
            bytes,
            size: text.len(),
        }
    }

    // The text, for a reader.
    pub fn as_slice(&self) -> &[u8]
        ensures text { result.now ≡ self.now }
        ensures room { length self.now ≤ N }
    {
        &self.bytes[..self.size]
    }

    // All bytes, for a reader of a fixed number: the text, and the zeros behind it.
    pub fn bytes(&self) -> [u8; N]
        ensures { result ≡ padded N self.now }
    {
        self.bytes
    }
}
