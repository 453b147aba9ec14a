// Numbers in bytes: little-endian, signed ones in two's complement.
// What is public is total: any crate may call it.
#![tactic(auto)]

ghost use Rattle.std.specs.Prelude.{◌≡◌, ℕ, List, length, drop, ◌<◌, ◌≤◌, refl};
ghost use Rattle.std.proofs.Common.{arith};
ghost use Rattle.rules.specs.Bytes.{little, signed, word, bytes, unsigned_at, signed_at};

// The bytes from an offset on: none behind the end.
fn from(bytes: &[u8], at: usize) -> &[u8]
    ensures { result.now ≡ drop at bytes.now }
{
    bytes.get(at..).unwrap_or(&[])
}

// Fewer than N bytes, with zeros above them.
#[tactic(auto, using(crate::proofs::Offsets::little_padded))]
fn padded<const N: usize>(left: &[u8]) -> [u8; N]
    requires few { length left.now < N }
    requires small { N ≤ 16 }
    ensures { little result ≡ little left.now }
{
    let mut all = [0; N];
    all[..left.len()].copy_from_slice(left);
    all
}

// A number of N bytes, the low one first.
pub trait LittleEndian<const N: usize>: Sized {
    // the number with these bits, and the bits of a number
    ghost of_bits: { ℕ → Self };

    ghost bits: { Self → ℕ };

    // the number in the N bytes from an offset on
    ghost standing: { List ℕ → ℕ → Self };

    fn from_bytes(b: [u8; N]) -> Self
        ensures { result ≡ of_bits (little b.entry) };

    fn to_bytes(self) -> [u8; N]
        ensures { result ≡ bytes N (bits self) };

    // The number at any offset of any bytes. Where bytes are missing, those that are there are read.
    #[tactic(auto, using(crate::proofs::Offsets::whole_at, crate::proofs::Offsets::short_at))]
    final fn read(bytes: &[u8], at: usize) -> Self
        ensures { result ≡ standing bytes.now at }
    {
        let left = from(bytes, at);
        match left.first_chunk() {
            Some(all) => Self::from_bytes(*all),
            None => Self::from_bytes(padded(left)),
        }
    }

    // an array of N bytes is not too large for memory
    ghost small: { N ≤ 16 };

    ghost stands: { (bs : List ℕ) (at : ℕ) → standing bs at ≡ of_bits (unsigned_at bs at N) };
}

// The check doesn't take over the trait's clause on an array passed by value, so each `from_bytes`
// has its own, from which the trait's is proved.

impl LittleEndian<1> for u8 {
    ghost of_bits = { λ n. n };

    ghost bits = { λ x. x };

    ghost standing = { λ bs at. unsigned_at bs at 1 };

    fn from_bytes(b: [u8; 1]) -> u8
        ensures { result ≡ little b }
    {
        u8::from_le_bytes(b)
    }

    #[tactic(auto, using(crate::proofs::Little::written_is))]
    fn to_bytes(self) -> [u8; 1] {
        u8::to_le_bytes(self)
    }

    ghost small = { Prim.omega arith };

    ghost stands = { λ _ _. refl };
}

impl LittleEndian<2> for u16 {
    ghost of_bits = { λ n. n };

    ghost bits = { λ x. x };

    ghost standing = { λ bs at. unsigned_at bs at 2 };

    fn from_bytes(b: [u8; 2]) -> u16
        ensures { result ≡ little b }
    {
        u16::from_le_bytes(b)
    }

    #[tactic(auto, using(crate::proofs::Little::written_is))]
    fn to_bytes(self) -> [u8; 2] {
        u16::to_le_bytes(self)
    }

    ghost small = { Prim.omega arith };

    ghost stands = { λ _ _. refl };
}

impl LittleEndian<4> for u32 {
    ghost of_bits = { λ n. n };

    ghost bits = { λ x. x };

    ghost standing = { λ bs at. unsigned_at bs at 4 };

    fn from_bytes(b: [u8; 4]) -> u32
        ensures { result ≡ little b }
    {
        u32::from_le_bytes(b)
    }

    #[tactic(auto, using(crate::proofs::Little::written_is))]
    fn to_bytes(self) -> [u8; 4] {
        u32::to_le_bytes(self)
    }

    ghost small = { Prim.omega arith };

    ghost stands = { λ _ _. refl };
}

impl LittleEndian<8> for u64 {
    ghost of_bits = { λ n. n };

    ghost bits = { λ x. x };

    ghost standing = { λ bs at. unsigned_at bs at 8 };

    fn from_bytes(b: [u8; 8]) -> u64
        ensures { result ≡ little b }
    {
        u64::from_le_bytes(b)
    }

    #[tactic(auto, using(crate::proofs::Little::written_is))]
    fn to_bytes(self) -> [u8; 8] {
        u64::to_le_bytes(self)
    }

    ghost small = { Prim.omega arith };

    ghost stands = { λ _ _. refl };
}

impl LittleEndian<16> for u128 {
    ghost of_bits = { λ n. n };

    ghost bits = { λ x. x };

    ghost standing = { λ bs at. unsigned_at bs at 16 };

    fn from_bytes(b: [u8; 16]) -> u128
        ensures { result ≡ little b }
    {
        u128::from_le_bytes(b)
    }

    #[tactic(auto, using(crate::proofs::Little::written_is))]
    fn to_bytes(self) -> [u8; 16] {
        u128::to_le_bytes(self)
    }

    ghost small = { Prim.omega arith };

    ghost stands = { λ _ _. refl };
}

impl LittleEndian<1> for i8 {
    ghost of_bits = { signed 8 };

    ghost bits = { word 8 };

    ghost standing = { λ bs at. signed_at bs at 1 };

    #[tactic(auto, using(crate::proofs::TwosComplement::signed_came))]
    fn from_bytes(b: [u8; 1]) -> i8
        ensures { result ≡ signed 8 (little b) }
    {
        u8::from_bytes(b).cast_signed()
    }

    #[tactic(auto, using(crate::proofs::TwosComplement::word_is))]
    fn to_bytes(self) -> [u8; 1] {
        u8::to_bytes(self.cast_unsigned())
    }

    ghost small = { Prim.omega arith };

    ghost stands = { λ _ _. unfold signed_at in refl };
}

impl LittleEndian<4> for i32 {
    ghost of_bits = { signed 32 };

    ghost bits = { word 32 };

    ghost standing = { λ bs at. signed_at bs at 4 };

    #[tactic(auto, using(crate::proofs::TwosComplement::signed_came))]
    fn from_bytes(b: [u8; 4]) -> i32
        ensures { result ≡ signed 32 (little b) }
    {
        u32::from_bytes(b).cast_signed()
    }

    #[tactic(auto, using(crate::proofs::TwosComplement::word_is))]
    fn to_bytes(self) -> [u8; 4] {
        u32::to_bytes(self.cast_unsigned())
    }

    ghost small = { Prim.omega arith };

    ghost stands = { λ _ _. unfold signed_at in refl };
}

impl LittleEndian<8> for i64 {
    ghost of_bits = { signed 64 };

    ghost bits = { word 64 };

    ghost standing = { λ bs at. signed_at bs at 8 };

    #[tactic(auto, using(crate::proofs::TwosComplement::signed_came))]
    fn from_bytes(b: [u8; 8]) -> i64
        ensures { result ≡ signed 64 (little b) }
    {
        u64::from_bytes(b).cast_signed()
    }

    #[tactic(auto, using(crate::proofs::TwosComplement::word_is))]
    fn to_bytes(self) -> [u8; 8] {
        u64::to_bytes(self.cast_unsigned())
    }

    ghost small = { Prim.omega arith };

    ghost stands = { λ _ _. unfold signed_at in refl };
}
