ghost use Rattle.std.specs.Prelude.{◌≡◌, ℕ};
ghost use Rattle.wat_disk.specs.Disk.{Image};
ghost use Rattle.wat_restore.specs.Restored.{stored_page};
ghost use Rattle.wat_book.specs.Book.{Book};
ghost use Rattle.wat_files.specs.Pages.{first_pages};
ghost use Rattle.wat_free_list.specs.Whole.{whole_pages};

/// Where pages read as what files have at their places, the whole ones are the pages of the files: so what is said of whole
/// pages is said of the files.
pub fn whole_law()
    ensures { (book : Book) (files : Image) → ((page : ℕ) → book.page page ≡ stored_page files page) → whole_pages book ≡ first_pages files book.count }
{}
