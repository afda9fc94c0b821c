//! Tests of walks over listings, without a server.

use crate::{FromOffset, PassedOver, Place, Visitor, Walk, WalkLimits};
use ftp_base::types::FtpResult;
use ftp_list::{File, Listing};
use ftp_transfer::Progress;
use std::alloc::Global;
use std::test::Fail;

/// Writes down what it is shown, and enters each folder but `no`.
#[derive(Drop)]
struct Notes {
    alloc: Global,
    text: String,
}

impl Visitor for Notes {
    fn entry(&mut self, place: &Place, entry: &File) -> FtpResult<bool> {
        let path = place.below(self.alloc, "r")?;
        let _ = write!(self.text, "{path}|");
        Ok(entry.name() != "no")
    }

    fn passed_over(&mut self, folder: &Place, what: PassedOver<'_>) -> FtpResult<()> {
        let path = folder.below(self.alloc, "r")?;
        let _ = match what {
            PassedOver::TooDeep => write!(self.text, "{path} too deep|"),
            PassedOver::TooMany(count) => write!(self.text, "{path} {count} more|"),
            PassedOver::NotPlain(entry) => write!(self.text, "{path} has {}|", entry.name()),
            PassedOver::Other(other) => write!(self.text, "{path} has device {}|", other.name()),
            PassedOver::Unread(line) => write!(self.text, "{path} has line {line}|"),
            PassedOver::Refused(reply) => write!(self.text, "{path}: {reply}|"),
        };
        Ok(())
    }
}

/// The listing of these lines of facts, which have bars between them.
fn listing_of(alloc: Global, lines: &str) -> Result<Listing, Fail> {
    let mut all = Vec::new(alloc);
    for line in lines.split('|') {
        if !line.is_empty() {
            all.push(String::from_str(alloc, line)?)?;
        }
    }
    Ok(Listing::of_mlsd(alloc, &all)?)
}

/// What a visitor is shown by a walk to folders that are listed so, one after the other.
fn walked(alloc: Global, limits: WalkLimits, listings: &[&str]) -> Result<String, Fail> {
    let mut notes = Notes {
        alloc,
        text: String::new(alloc),
    };
    let mut walk = Walk::new(alloc, "r", limits)?;
    for lines in listings {
        let Some(folder) = walk.next_folder(&mut notes)? else {
            break;
        };
        let path = walk.path(alloc, &folder)?;
        write!(notes.text, "[{path}]")?;
        walk.visit(alloc, &folder, &listing_of(alloc, lines)?, &mut notes)?;
    }
    let left = walk.next_folder(&mut notes)?.is_some();
    let Notes { alloc: _, mut text } = notes;
    write!(text, "{left}")?;
    Ok(text)
}

/// A folder with two folders, one of which has a folder and a file.
const TREE: [&str; 4] = [
    "type=dir; a|type=file; f|type=dir; no|type=dir; b",
    "type=dir; c|type=file; g",
    "",
    "type=file; h",
];

#[test]
fn a_walk_is_depth_first_and_shows_each_entry_once(rt: HostRuntime) -> Result<(), Fail> {
    let text = walked(rt.alloc(), WalkLimits::default(), &TREE)?;
    assert_eq!(rt;
        text.as_str(),
        "[r]r/a|r/f|r/no|r/b|[r/a]r/a/c|r/a/g|[r/a/c][r/b]r/b/h|false"
    );
    Ok(())
}

#[test]
fn names_that_lead_elsewhere_make_no_place(rt: HostRuntime) -> Result<(), Fail> {
    let lines =
        "type=dir; ../up|type=file; a/b|type=dir; /etc|type=OS.unix=blkdev-8/1; sda|type=file; ok|unix.mode=888; x";
    let text = walked(rt.alloc(), WalkLimits::default(), &[lines])?;
    assert_eq!(rt;
        text.as_str(),
        "[r]r has ../up|r has a/b|r has /etc|r/ok|r has device sda|r has line unix.mode=888; x|false"
    );
    Ok(())
}

#[test]
fn a_walk_ends_at_its_limits(rt: HostRuntime) -> Result<(), Fail> {
    let limits = WalkLimits {
        levels: 2,
        entries: 1,
    };
    let text = walked(rt.alloc(), limits, &TREE)?;
    assert_eq!(rt;
        text.as_str(),
        "[r]r/a|r 3 more|[r/a]r/a/c|r/a 1 more|r/a/c too deep|false"
    );
    Ok(())
}

#[test]
fn a_place_is_put_below_any_folder(rt: HostRuntime) -> Result<(), Fail> {
    let alloc = rt.alloc();
    let root = Place::root(alloc);
    let Some(place) = root.child(alloc, "a")? else {
        return Err(Fail::from("a is plain"));
    };
    let paths = [
        place.below(alloc, "")?,
        place.below(alloc, "/")?,
        place.below(alloc, "/pub/")?,
        place.below(alloc, "pub")?,
    ];
    assert_eq!(rt;
        [
            paths[0].as_str(),
            paths[1].as_str(),
            paths[2].as_str(),
            paths[3].as_str()
        ],
        ["a", "/a", "/pub/a", "pub/a"]
    );
    Ok(())
}

/// What was reported last.
#[derive(Drop)]
struct Told(u64);

impl Progress for Told {
    fn went(&mut self, so_far: u64) {
        self.0 = so_far;
    }
}

#[test]
fn a_progress_from_an_offset_is_the_place_in_the_file(rt: HostRuntime) -> Result<(), Fail> {
    let mut told = Told(0);
    FromOffset::new(40, &mut told).went(2);
    assert_eq!(rt; told.0, 42);
    Ok(())
}
