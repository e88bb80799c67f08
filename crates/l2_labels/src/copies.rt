// Copies of a code's tables.
ghost use Rattle.std.specs.Prelude.{◌≡◌, IfOk};

use l2_bits::List;
use l2_code::{CodeLoop, CodeObject, Pointed};
use std::alloc::{AllocError, Global};

/// The same items once more.
pub fn copied<T: Copy>(alloc: Global, list: &List<T>) -> Result<List<T>, AllocError>
    ensures { IfOk result (λ l. l ≡ list.now) }
{
    let mut items = Vec::new(alloc);
    items.extend_from_slice(list.as_slice())?;
    Ok(List::new(items))
}

fn object(alloc: Global, object: &CodeObject) -> Result<CodeObject, AllocError>
    ensures { IfOk result (λ o. o ≡ object.now) }
{
    let name = copied(alloc, &object.name)?;
    let cells = copied(alloc, &object.cells)?;
    let start = copied(alloc, &object.start)?;
    Ok(CodeObject {
        name,
        is_static: object.is_static,
        hidden: object.hidden,
        cells,
        start,
    })
}

/// The same objects once more.
pub fn objects(alloc: Global, list: &[CodeObject]) -> Result<List<CodeObject>, AllocError>
    ensures { IfOk result (λ l. l ≡ list.now) }
{
    let mut all = Vec::new(alloc);
    for item in list {
        all.push(object(alloc, item)?)?;
    }
    Ok(List::new(all))
}

/// The same types once more.
pub fn pointed(alloc: Global, list: &[Pointed]) -> Result<List<Pointed>, AllocError>
    ensures { IfOk result (λ l. l ≡ list.now) }
{
    let mut all = Vec::new(alloc);
    for item in list {
        let cells = copied(alloc, &item.cells)?;
        all.push(Pointed { cells })?;
    }
    Ok(List::new(all))
}

/// The same loops once more.
pub fn loops(alloc: Global, list: &[CodeLoop]) -> Result<List<CodeLoop>, AllocError>
    ensures { IfOk result (λ l. l ≡ list.now) }
{
    let mut all = Vec::new(alloc);
    for item in list {
        let vars = copied(alloc, &item.vars)?;
        let mods = copied(alloc, &item.mods)?;
        all.push(CodeLoop { vars, mods })?;
    }
    Ok(List::new(all))
}
