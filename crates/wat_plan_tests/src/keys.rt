ghost use Rattle.std.specs.Prelude.{◌≡◌, [], ◌∷◌, IfOk};
ghost use Rattle.wat_value.specs.declared.value.Value.TheVariants.{Int};

use crate::printing::{printed_key, printed_lower};
use std::alloc::{AllocError, Global};
use wat_index::{IndexError, ScanIndex, VecIndex};
use wat_value::{Bound, Key, Value};

fn key_of(alloc: Global, n: i64) -> Result<Key, AllocError>
    ensures { IfOk result (λ key. key ≡ Int n ∷ []) }
{
    let mut key = Key::new(alloc);
    key.push(Value::Int(n))?;
    Ok(key)
}

fn want(error: IndexError) -> AllocError {
    match error {
        IndexError::Failed | IndexError::PageLimit | IndexError::Memory => AllocError,
    }
}

// What a bound gives, through the trait.
fn first<I: ScanIndex<()>>(alloc: Global, index: &I, from: &Bound) -> Result<String, AllocError> {
    let bound = printed_lower(alloc, from)?;
    match index.successor(&mut (), from).map_err(want)? {
        Some(key) => format!(in alloc; "    {bound}: {}\n", printed_key(alloc, &key)?),
        None => format!(in alloc; "    {bound}: none\n"),
    }
}

fn firsts(alloc: Global, index: &VecIndex) -> Result<String, AllocError> {
    let mut text = first(alloc, index, &Bound::Free)?;
    for n in [0, 1, 2, 3] {
        let including = Bound::Including(key_of(alloc, n)?);
        text.push_str(first(alloc, index, &including)?.as_str())?;
        let excluding = Bound::Excluding(key_of(alloc, n)?);
        text.push_str(first(alloc, index, &excluding)?.as_str())?;
    }
    Ok(text)
}

fn add(alloc: Global, index: &mut VecIndex, n: i64) -> Result<(), AllocError> {
    let key = key_of(alloc, n)?;
    index.insert(&mut (), &key).map_err(want)
}

/// What an index answers that has the keys 1 and 3, each of which was inserted twice; and then
/// without 1.
pub(crate) fn answers(alloc: Global) -> Result<String, AllocError> {
    let mut index = VecIndex::new(alloc);
    for n in [3, 1, 3, 1] {
        add(alloc, &mut index, n)?;
    }
    let mut text = String::from_str(alloc, "the keys 1 and 3\n")?;
    text.push_str(firsts(alloc, &index)?.as_str())?;
    for n in [1, 2] {
        index.remove(&mut (), &key_of(alloc, n)?).map_err(want)?;
    }
    text.push_str("without 1 and 2\n")?;
    text.push_str(firsts(alloc, &index)?.as_str())?;
    Ok(text)
}
