// A desk and a sink in memory, whose faults are planned.
ghost use Rattle.std.specs.Prelude.{◌≡◌, ◌++◌, [], ◌∷◌, OnOk, OnErr, IfOk, MatchOption, None, Some, take};
ghost use Rattle.unr_io.specs.Plan.{planned, loadable, kept_of};
ghost use Rattle.unr_io.specs.Desk.{file_at};

use crate::{Desk, DeskError, Kind, Sink, SinkError};
use std::alloc::{AllocError, Global};
use std::marker::Model;

/// A planned fault. Of several plans for one call the first counts.
#[derive(Clone, Copy, Debug, PartialEq, Eq)]
pub struct Fail {
    /// The number of the call that fails, from 1, over the calls that do not answer `Memory`.
    pub call: u32,
    /// How many bytes a store or a put that fails keeps, or all where there are fewer.
    pub kept: u32,
}

#[derive(Drop)]
struct Entry {
    name: String,
    bytes: Vec<u8>,
}

/// A call of a desk in memory: what it was asked, and of which file.
#[derive(Drop)]
pub struct Call {
    pub kind: Kind,
    pub name: String,
}

/// Files in memory, seen as a list of names and bytes. Of several with one name the first counts.
///
/// To look a file up, and to put one in, takes time in the number of files.
#[derive(Drop)]
pub struct Files {
    entries: Vec<Entry>,
}

impl Model for Files {
    ghost use Rattle.std.specs.Prelude.{ℕ, List};

    ghost Value = { List (List ℕ × List ℕ) };

    ghost use Rattle.unr_io.specs.Entries.{contents};

    ghost view = { λ a. contents a.entries.items };
}

impl Files {
    /// No files.
    pub fn new(alloc: Global) -> Self
        ensures { result ≡ [] }
    {
        Files {
            entries: Vec::new(alloc),
        }
    }

    /// Puts a file before the others, so that its bytes count.
    pub fn set(&mut self, alloc: Global, name: &str, bytes: &[u8]) -> Result<(), AllocError>
        ensures ok { OnOk result (self.new ≡ (name.now, bytes.now) ∷ self.old) }
        ensures err { OnErr result (self.new ≡ self.old) }
    {
        let entry = Entry {
            name: String::from_str(alloc, name)?,
            bytes: bytes.to_vec(alloc)?,
        };
        self.entries.insert(0, entry)?;
        Ok(())
    }

    /// The bytes of the first file with that name.
    pub fn get(&self, name: &str) -> Option<&[u8]>
        ensures { MatchOption result (file_at self.now name.now ≡ None) (λ bytes. file_at self.now name.now ≡ Some bytes.now) }
    {
        for entry in &self.entries {
            if entry.name.as_str() == name {
                return Some(&entry.bytes);
            }
        }
        None
    }
}

// How many bytes the call with that number keeps, where it is to fail.
fn planned(fails: &[Fail], number: u64) -> Option<u32>
    ensures { result ≡ planned fails.now number }
{
    for fail in fails {
        if u64::from(fail.call) == number {
            return Some(fail.kept);
        }
    }
    None
}

// The first bytes, or all where there are fewer.
fn front_of(bytes: &[u8], count: u64) -> &[u8]
    ensures { result.now ≡ take count bytes.now }
{
    if count < bytes.len() as u64 {
        &bytes[..count as usize]
    } else {
        bytes
    }
}

// The file's first bytes, where it is there and no fault is planned.
fn loadable(
    alloc: Global,
    files: &Files,
    fault: Option<u32>,
    name: &str,
    max: u64,
) -> Result<Option<Vec<u8>>, AllocError>
    ensures { IfOk result (λ found. MatchOption found (loadable fault (file_at files.now name.now) max ≡ None) (λ v. loadable fault (file_at files.now name.now) max ≡ Some v.items)) }
{
    match (fault, files.get(name)) {
        (None, Some(bytes)) => Ok(Some(front_of(bytes, max).to_vec(alloc)?)),
        _ => Ok(None),
    }
}

// What a store leaves of the bytes, where that fault is planned.
fn kept_of(bytes: &[u8], fault: Option<u32>) -> &[u8]
    ensures { result.now ≡ kept_of fault bytes.now }
{
    match fault {
        Some(kept) => front_of(bytes, u64::from(kept)),
        None => bytes,
    }
}

/// A desk in memory. It tells its files and its calls, and fails as planned.
///
/// A call takes time in the number of files and of planned faults, and in the bytes that it copies.
#[derive(Drop)]
pub struct MemDesk {
    alloc: Global,
    files: Files,
    fails: Vec<Fail>,
    calls: Vec<Call>,
    faults: u64,
}

impl MemDesk {
    ghost use Rattle.unr_io.specs.Entries.{calls_of};
    ghost use Rattle.unr_io.specs.MemoryStates.{desk_state, files_on, calls_on, desk_plan};

    /// A desk with these files, no call and no fault so far.
    pub fn make(alloc: Global, files: Files, fails: Vec<Fail>) -> Self
        ensures state { desk_state result ≡ record { faults = 0; told = Some (record { files = files; calls = [] }) } }
        ensures plan { desk_plan result ≡ fails.items }
    {
        MemDesk {
            alloc,
            files,
            fails,
            calls: Vec::new(alloc),
            faults: 0,
        }
    }

    /// The bytes of the file with that name.
    pub fn file(&self, name: &str) -> Option<&[u8]>
        ensures { MatchOption result (file_at (files_on self.now) name.now ≡ None) (λ bytes. file_at (files_on self.now) name.now ≡ Some bytes.now) }
    {
        self.files.get(name)
    }

    /// The calls so far, in order.
    pub fn calls(&self) -> &[Call]
        ensures { calls_of result.now ≡ calls_on self.now }
    {
        &self.calls
    }
}

impl Desk for MemDesk {
    ghost use Rattle.unr_io.specs.Desk.{Tells, Loads, Stores, HasCause};
    ghost use Rattle.unr_io.specs.MemoryStates.{desk_state, desk_plan, LoadsAsPlanned, StoresAsPlanned};

    ghost state = { desk_state };

    fn load(&mut self, name: &str, max: u64) -> Result<Vec<u8>, DeskError>
        ensures loads { Tells (desk_state self.old).told (desk_state self.new).told (Loads name.now max result) }
        ensures cause { HasCause (desk_state self.old).faults (desk_state self.new).faults result }

        // It fails where that is planned or there is no such file, and nowhere else.
        ensures planned { LoadsAsPlanned name.now max result self.old self.new }
        ensures plan { desk_plan self.new ≡ desk_plan self.old }
    {
        let call = Call {
            kind: Kind::Load,
            name: String::from_str(self.alloc, name)?,
        };
        self.calls.reserve(1)?;
        let fault = planned(&self.fails, self.calls.len() as u64 + 1);
        let bytes = loadable(self.alloc, &self.files, fault, name, max)?;
        self.calls.push_reserved(call);
        match bytes {
            Some(bytes) => Ok(bytes),
            None => {
                self.faults = self.faults.saturating_add(1);
                Err(DeskError::Failed)
            }
        }
    }

    fn store(&mut self, name: &str, bytes: &[u8]) -> Result<(), DeskError>
        ensures stores { Tells (desk_state self.old).told (desk_state self.new).told (Stores name.now bytes.now result) }
        ensures cause { HasCause (desk_state self.old).faults (desk_state self.new).faults result }

        // It fails where that is planned, keeping as much as planned, and nowhere else.
        ensures planned { StoresAsPlanned name.now bytes.now result self.old self.new }
        ensures plan { desk_plan self.new ≡ desk_plan self.old }
    {
        let call = Call {
            kind: Kind::Store,
            name: String::from_str(self.alloc, name)?,
        };
        self.calls.reserve(1)?;
        let fault = planned(&self.fails, self.calls.len() as u64 + 1);
        self.files.set(self.alloc, name, kept_of(bytes, fault))?;
        self.calls.push_reserved(call);
        match fault {
            None => Ok(()),
            Some(_) => {
                self.faults = self.faults.saturating_add(1);
                Err(DeskError::Failed)
            }
        }
    }
}

/// A sink in memory. It tells its bytes, and fails as planned.
///
/// A put takes time in the number of planned faults and in the bytes that it copies.
#[derive(Drop)]
pub struct MemSink {
    bytes: Vec<u8>,
    fails: Vec<Fail>,
    puts: u64,
    faults: u64,
    refusals: u64,
}

impl MemSink {
    ghost use Rattle.unr_io.specs.MemoryStates.{sink_state, sink_plan, puts_so_far};

    /// A sink with no byte, no put and no fault so far.
    pub fn make(alloc: Global, fails: Vec<Fail>) -> Self
        ensures state { sink_state result ≡ record { faults = 0; refusals = 0; written = Some [] } }
        ensures plan { sink_plan result ≡ fails.items }
        ensures first { puts_so_far result ≡ 0 }
    {
        MemSink {
            bytes: Vec::new(alloc),
            fails,
            puts: 0,
            faults: 0,
            refusals: 0,
        }
    }

    /// The bytes so far.
    pub fn bytes(&self) -> &[u8]
        ensures { (sink_state self.now).written ≡ Some result.now }
    {
        &self.bytes
    }
}

impl Sink for MemSink {
    ghost use Rattle.unr_io.specs.Sink.{Puts};
    ghost use Rattle.unr_io.specs.MemoryStates.{sink_state, sink_plan, PutsAsPlanned};

    ghost state = { sink_state };

    fn put(&mut self, bytes: &[u8]) -> Result<(), SinkError>
        ensures puts { Puts bytes.now result (sink_state self.old) (sink_state self.new) }

        // It fails where that is planned, keeping as much as planned, and nowhere else.
        ensures planned { PutsAsPlanned bytes.now result self.old self.new }
        ensures plan { sink_plan self.new ≡ sink_plan self.old }
    {
        let number = self.puts.saturating_add(1);
        let fault = planned(&self.fails, number);
        if self.bytes.extend_from_slice(kept_of(bytes, fault)).is_err() {
            self.refusals = self.refusals.saturating_add(1);
            return Err(SinkError::Memory);
        }
        self.puts = number;
        if fault.is_some() {
            self.faults = self.faults.saturating_add(1);
            return Err(SinkError::Failed);
        }
        Ok(())
    }
}
