// Numbers in payloads: eight bytes each, high byte first.
ghost use Rattle.std.specs.Prelude.{◌≡◌, [], ◌∷◌, ◌++◌, ◌<◌, length, OnOk, IfSome, MatchOption};
ghost use Rattle.std.specs.List.{flat_map};
ghost use Rattle.arj_class.specs.Forms.{NumbersFit, PairsFit};
ghost use Rattle.arj_class.specs.Keys.{pair_bytes};
ghost use Rattle.byteorder.specs.Endian.{big_bytes};

use arj_base::Bytes;
use byteorder::{BigEndian, ByteOrder};
use std::alloc::AllocError;

/// Numbers of 64 bits fit. It does nothing when it runs.
pub(crate) fn numbers_fit(numbers: &[u64])
    ensures { NumbersFit numbers.now }
{}

/// Pairs of numbers of 64 bits fit. It does nothing when it runs.
pub(crate) fn pairs_fit(pairs: &[(u64, u64)])
    ensures { PairsFit pairs.now }
{
    for pair in pairs {
        numbers_fit(&[pair.0, pair.1]);
    }
}

/// Puts a number at the end.
pub(crate) fn put_number(payload: &mut Bytes, number: u64) -> Result<(), AllocError>
    ensures { OnOk result (payload.new ≡ payload.old ++ big_bytes 8 number) }
{
    let mut bytes = [0; 8];
    BigEndian::write_u64(&mut bytes, number);
    payload.extend(&bytes)
}

/// Puts numbers at the end.
pub(crate) fn put_numbers(payload: &mut Bytes, numbers: &[u64]) -> Result<(), AllocError>
    ensures bytes { OnOk result (payload.new ≡ payload.old ++ flat_map (big_bytes 8) numbers.now) }
    ensures fit { OnOk result (NumbersFit numbers.now) }
{
    for number in numbers {
        put_number(payload, *number)?;
    }
    Ok(())
}

/// Puts a pair at the end: the key, then the value.
pub(crate) fn put_pair(payload: &mut Bytes, pair: (u64, u64)) -> Result<(), AllocError>
    ensures bytes { OnOk result (payload.new ≡ payload.old ++ pair_bytes pair) }
    ensures fit { PairsFit (pair ∷ []) }
{
    let (key, value) = pair;
    put_number(payload, key)?;
    put_number(payload, value)?;
    Ok(())
}

/// Puts pairs at the end.
pub(crate) fn put_pairs(payload: &mut Bytes, pairs: &[(u64, u64)]) -> Result<(), AllocError>
    ensures bytes { OnOk result (payload.new ≡ payload.old ++ flat_map pair_bytes pairs.now) }
    ensures fit { OnOk result (PairsFit pairs.now) }
{
    for pair in pairs {
        put_pair(payload, *pair)?;
    }
    Ok(())
}

#[tactic(auto, using(std::proofs::lemmas::Nat::be_bytes_8))]
/// The first number and the bytes behind it, None where fewer than eight are left.
pub(crate) fn take_number(payload: &[u8]) -> Option<(u64, &[u8])>
    ensures bytes { MatchOption result (length payload.now < 8) (λ p. payload.now ≡ big_bytes 8 p.0 ++ p.1.now) }
    ensures fit { IfSome result (λ p. NumbersFit (p.0 ∷ [])) }
{
    let (bytes, behind) = payload.split_first_chunk::<8>()?;
    Some((u64::from_be_bytes(*bytes), behind))
}

/// The first pair and the bytes behind it, None where fewer than sixteen are left.
pub(crate) fn take_pair(payload: &[u8]) -> Option<((u64, u64), &[u8])>
    ensures bytes { MatchOption result (length payload.now < 16) (λ p. payload.now ≡ pair_bytes p.0 ++ p.1.now) }
    ensures fit { IfSome result (λ p. PairsFit (p.0 ∷ [])) }
{
    let (key, behind) = take_number(payload)?;
    let (value, behind) = take_number(behind)?;
    Some(((key, value), behind))
}
