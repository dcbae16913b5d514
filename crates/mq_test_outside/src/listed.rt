// Files that show of which names a load was tried.
ghost use Rattle.std.specs.Prelude.{◌≡◌, [], Some, map};
ghost use Rattle.std.specs.String.{string_bytes};

use mq_outside::{Files, LoadRefusal, SaveRefusal};
use std::alloc::Global;

/// Files over others. They list the names that were to be loaded, one after another.
#[derive(Drop)]
pub struct ListedFiles<F: Files> {
    alloc: Global,
    files: F,
    tried: Vec<String>,
}

impl<F: Files> ListedFiles<F> {
    /// Files over these, with an empty list.
    pub fn new(alloc: Global, files: F) -> ListedFiles<F>
        ensures files { result.files ≡ files }
        ensures none { (⟦<ListedFiles<F> as Files>⟧.state result).tried ≡ Some [] }
    {
        ListedFiles {
            alloc,
            files,
            tried: Vec::new(alloc),
        }
    }

    /// The names that were to be loaded, one after another.
    pub fn tried(&self) -> &[String]
        ensures { (⟦<ListedFiles<F> as Files>⟧.state self.now).tried ≡ Some (map string_bytes result.now) }
    {
        self.tried.as_slice()
    }
}

impl<F: Files> Files for ListedFiles<F> {
    ghost state = { λ f. record {
      contents = (F.state f.files).contents;
      faults = (F.state f.files).faults;
      taken = (F.state f.files).taken;
      tried = Some (map string_bytes f.tried.items);
    } };

    fn load(&mut self, alloc: Global, name: &str) -> Result<Vec<u8>, LoadRefusal> {
        let Ok(copy) = String::from_str(self.alloc, name) else {
            return Err(LoadRefusal::OutOfMemory);
        };
        if self.tried.push(copy).is_err() {
            return Err(LoadRefusal::OutOfMemory);
        }
        self.files.load(alloc, name)
    }

    fn save(&mut self, name: &str, bytes: &[u8]) -> Result<(), SaveRefusal> {
        self.files.save(name, bytes)
    }
}
