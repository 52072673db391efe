ghost use Rattle.std.specs.Prelude.{◌≡◌};

use std::alloc::Global;
use wat_heap::Heap;
use wat_pages::Pages;
use wat_schema::Schema;
use wat_undo::Undo;

/// The rows of all tables, the schema, and the changes that can be rolled back, on the pages of a database. The disk on which
/// the pages stand is handed to each call that works on it.
///
/// After a refusal of such a call the objects are not used again.
#[derive(Drop)]
pub struct Objects {
    pub(crate) alloc: Global,
    pub(crate) pages: Pages,
    pub(crate) heap: Heap,
    pub(crate) undo: Undo,
    pub(crate) schema: Schema,
    /// The first page of the chain that has the schema.
    pub(crate) catalog: u32,
}

impl Objects {
    ghost use Rattle.wat_objects.specs.Objects.{pages_of, schema_of, catalog_page_of, heap_of, undo_of};

    /// The objects of these parts.
    pub fn of(
        alloc: Global,
        pages: Pages,
        heap: Heap,
        undo: Undo,
        schema: Schema,
        catalog: u32,
    ) -> Objects
        ensures pages { pages_of result ≡ pages }
        ensures heap { heap_of result ≡ heap }
        ensures undo { undo_of result ≡ undo }
        ensures schema { schema_of result ≡ schema }
        ensures catalog { catalog_page_of result ≡ catalog }
    {
        Objects {
            alloc,
            pages,
            heap,
            undo,
            schema,
            catalog,
        }
    }

    pub fn schema(&self) -> &Schema
        ensures { result.now ≡ schema_of self.now }
    {
        &self.schema
    }

    pub fn pages(&self) -> &Pages
        ensures { result.now ≡ pages_of self.now }
    {
        &self.pages
    }
}
