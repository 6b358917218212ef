// The line of what failed, as it is printed, and what becomes of a print that fails: no clause can say it.
use super::*;
use std::alloc::Global;
use std::cell::{Cell, RefCell};
use std::fmt::Display;
use std::test::Fail;

// What is printed, call by call; one call is refused, and those after it are not.
#[derive(Drop)]
struct Page {
    alloc: Global,
    text: RefCell<String>,
    calls: Cell<usize>,
    refused: usize,
}

impl Page {
    fn put(&self, part: &str) -> io::Result<()> {
        let call = self.calls.get();
        self.calls.set(call.saturating_add(1));
        if call == self.refused {
            return Err(io::Error::from(io::ErrorKind::StorageFull));
        }
        let Ok(mut text) = self.text.try_borrow_mut() else {
            return Err(io::Error::from(io::ErrorKind::ResourceBusy));
        };
        text.push_str(part)?;
        Ok(())
    }
}

impl Print for Page {
    fn print<D: Display + Drop>(&self, value: D) -> io::Result<()> {
        let text = value.to_string(self.alloc)?;
        self.put(text.as_str())
    }

    fn println<D: Display + Drop>(&self, value: D) -> io::Result<()> {
        let text = format!(in self.alloc; "{value}\n")?;
        self.put(text.as_str())
    }

    fn write_all(&self, bytes: &[u8]) -> io::Result<()> {
        self.put(str::from_utf8(bytes).unwrap_or("?"))
    }
}

// What complain answers on a page that refuses the call of this number, from 0, and what then stands there.
fn complained(rt: &HostRuntime, refused: usize) -> (io::Result<()>, String) {
    let page = Page {
        alloc: rt.alloc(),
        text: RefCell::new(String::new(rt.alloc())),
        calls: Cell::new(0),
        refused,
    };
    let r = complain(
        &page,
        b"jobs/a.class",
        io::Error::from(io::ErrorKind::NotFound),
    );
    (r, page.text.into_inner())
}

#[test]
fn a_complaint_is_a_line_of_the_name_and_the_error(rt: HostRuntime) -> Result<(), Fail> {
    let (r, text) = complained(&rt, 2);
    r?;
    assert_eq!(rt; text.as_str(), "jobs/a.class: entity not found\n");
    Ok(())
}

#[test]
fn what_the_page_refuses_is_handed_on(rt: HostRuntime) -> Result<(), Fail> {
    for (refused, text) in [(0, ""), (1, "jobs/a.class")] {
        let (r, said) = complained(&rt, refused);
        assert!(rt;
            r.is_err_and(|e| e.kind() == io::ErrorKind::StorageFull),
            "{refused}"
        );
        assert_eq!(rt; said.as_str(), text);
    }
    Ok(())
}
