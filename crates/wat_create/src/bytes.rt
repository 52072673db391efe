// The bytes of a new database.
ghost use Rattle.std.specs.Prelude.{◌≡◌, ◌-◌, ◌≤◌, ◌++◌, length, replicate, IfOk};
ghost use Rattle.wat_restore.specs.Head.{head_bytes, head_fields};
ghost use Rattle.wat_create.specs.Made.{catalog_page, first_head, main_bytes};

use std::alloc::Global;
use wat_list::NoMemory;

// The page of the catalog up to its zeros: the kind, no next page, a payload of 4 bytes, and this payload at 16, which counts no
// tables.
const CATALOG: [u8; 20] = [2, 0, 0, 0, 0, 0, 0, 0, 0, 4, 0, 0, 0, 0, 0, 0, 0, 0, 0, 0];

fn zeros(alloc: Global, count: usize) -> Result<Vec<u8>, NoMemory>
    ensures { IfOk result (λ bytes. bytes.items ≡ replicate count 0) }
{
    vec![in alloc; 0; count]
}

// These bytes, and zeros behind them up to the end of a page.
fn padded(alloc: Global, front: &[u8]) -> Result<Vec<u8>, NoMemory>
    requires { length front.now ≤ 4096 }
    ensures { IfOk result (λ page. page.items ≡ front.now ++ replicate (4096 - length front.now) 0) }
{
    let mut page = front.to_vec(alloc)?;
    let zeros = zeros(alloc, 4096 - front.len())?;
    page.extend_from_slice(zeros.as_slice())?;
    Ok(page)
}

// The fields of the header, one behind the other.
fn fields(alloc: Global, limit: u32) -> Result<Vec<u8>, NoMemory>
    ensures { IfOk result (λ bytes. bytes.items ≡ head_fields (first_head limit)) }
{
    let mut bytes = Vec::from_slice(alloc, b"WATSQL01")?;
    bytes.extend_from_slice(&1u32.to_be_bytes())?;
    bytes.extend_from_slice(&4096u32.to_be_bytes())?;
    bytes.extend_from_slice(&limit.to_be_bytes())?;
    bytes.extend_from_slice(&2u32.to_be_bytes())?;
    bytes.extend_from_slice(&0u64.to_be_bytes())?;
    bytes.extend_from_slice(&0u64.to_be_bytes())?;
    bytes.extend_from_slice(&1u32.to_be_bytes())?;
    bytes.extend_from_slice(&0u32.to_be_bytes())?;
    bytes.extend_from_slice(&0u32.to_be_bytes())?;
    bytes.extend_from_slice(&1u32.to_be_bytes())?;
    Ok(bytes)
}

// The header's page.
fn header(alloc: Global, limit: u32) -> Result<Vec<u8>, NoMemory>
    ensures { IfOk result (λ page. page.items ≡ head_bytes (first_head limit)) }
{
    let fields = fields(alloc, limit)?;
    padded(alloc, fields.as_slice())
}

// The catalog's page.
fn catalog(alloc: Global) -> Result<Vec<u8>, NoMemory>
    ensures { IfOk result (λ page. page.items ≡ catalog_page) }
{
    padded(alloc, &CATALOG)
}

/// The main file of a new database: the header and the catalog.
pub(crate) fn main_of(alloc: Global, limit: u32) -> Result<Vec<u8>, NoMemory>
    ensures bytes { IfOk result (λ main. main.items ≡ main_bytes limit) }
{
    let mut main = header(alloc, limit)?;
    let catalog = catalog(alloc)?;
    main.extend_from_slice(catalog.as_slice())?;
    Ok(main)
}
