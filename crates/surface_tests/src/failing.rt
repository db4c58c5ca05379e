//! A folder that fails at a call, under `resolve`.

ghost use Rattle.std.specs.Prelude.{◌≡◌};

use crate::problems::{SOURCE, TWO, boxed, folder_of};
use catalogue::{Prefer, Source};
use index_reader::{FailAt, Folder, FolderFault};
use resolver::{Answer, resolve};
use std::alloc::{AllocError, Global};
use std::test::Fail;

/// Writes down which paths a folder is asked for.
#[derive(Drop)]
struct Asked {
    folder: FailAt,
    paths: String,
}

impl Asked {
    fn put(&mut self, path: &str) -> Result<(), AllocError>
        ensures { self.new.folder ≡ self.old.folder }
    {
        self.paths.push_str(path)?;
        self.paths.push(' ')?;
        Ok(())
    }
}

impl Folder for Asked {
    ghost use Rattle.index_reader.specs.Folders.{FailingCalls};

    ghost calls = { λ old path answer new. FailingCalls old.folder path answer new.folder };

    ghost failed = { λ f. f.folder.failures };

    fn file(&mut self, path: &str) -> Result<Option<Vec<u8>>, FolderFault> {
        let answer = self.folder.file(path);
        // Where memory is wanting a path is missing in the list, which the test sees.
        let _ = self.put(path);
        answer
    }

    fn failures(&self) -> u64 {
        self.folder.failures()
    }
}

/// What `resolve` says of a folder that fails at a call, and what it was asked.
fn said(alloc: Global, k: u64) -> Result<String, AllocError> {
    let mut folder = Asked {
        folder: FailAt::new(folder_of(alloc, &TWO)?, k),
        paths: String::new(alloc),
    };
    let Ok(source) = Source::parse(alloc, SOURCE) else {
        return Err(AllocError);
    };
    let answer = resolve(
        alloc,
        TWO.manifest.as_bytes(),
        &mut folder,
        None,
        &source,
        Prefer::Newest,
    );
    match &*boxed(alloc, answer)? {
        Ok(Answer::Lock { .. }) => format!(in alloc; "a lock; {}", folder.paths),
        Ok(Answer::Unsolvable { .. }) => format!(in alloc; "unsolvable; {}", folder.paths),
        Err(fault) => format!(in alloc; "{fault}; {}", folder.paths),
    }
}

#[test]
fn fails_where_the_folder_does(rt: HostRuntime) -> Result<(), Fail> {
    for (k, wanted) in [
        (1, "fault 10 FolderFailed at 1/a; 1/a "),
        (2, "fault 10 FolderFailed at 1/b; 1/a 1/b "),
        (3, "a lock; 1/a 1/b "),
    ] {
        assert_eq!(rt; said(rt.alloc(), k)?.as_str(), wanted);
    }
    Ok(())
}
