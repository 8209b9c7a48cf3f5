//! What is known of the files of a project, in the memory of those that are read.
ghost use Rattle.std.specs.Prelude.{◌≡◌, ◌<◌, None, length, replicate, slice_index_or, is_some, IfOk, OnOk};
ghost use Rattle.std.specs.List.{slice_set};
ghost use Rattle.inc_graph.specs.Entries.{seen_state};
ghost use Rattle.inc_graph.specs.Nexts.{led_state};

use crate::building::file_entries::FileState;
use inc_lookup::FileId;
use std::alloc::{AllocError, Global};
use std::marker::Model;

/// What is known of each file of a project. Of those that are not read one record serves.
#[derive(Drop)]
pub(crate) struct FileStates {
    /// For each file of the project the place of its record.
    places: Vec<u32>,
    /// First that of the files that are not read, then one for each file that is, in the order of their readings.
    records: Vec<FileState>,
}

impl Model for FileStates {
    ghost use Rattle.std.specs.Prelude.{List};
    ghost use Rattle.inc_graph.specs.Entries.{states_at, AreRecords};
    ghost use Rattle.inc_graph.specs.GraphLists.{State};

    ghost Value = { List State };

    ghost view = { λ s. states_at s.records.items s.places.items };

    ghost invariant = { λ s. AreRecords s.records.items s.places.items };
}

impl FileStates {
    /// Of so many files none is read.
    pub fn unread(alloc: Global, count: usize) -> Result<FileStates, AllocError>
        ensures { IfOk result (λ states. states ≡ replicate count None) }
    {
        let mut records = Vec::new(alloc);
        records.push(FileState::Unread)?;
        Ok(FileStates {
            places: vec![in alloc; 0; count]?,
            records,
        })
    }

    /// How many files the project has.
    pub fn len(&self) -> usize
        ensures { result ≡ length self.now }
    {
        self.places.len()
    }

    /// What is known of the file at a place of the list.
    pub fn state(&self, place: usize) -> &FileState
        requires { place < length self.now }
        ensures { seen_state result.now ≡ slice_index_or self.now place None }
    {
        &self.records[self.places[place] as usize]
    }

    /// Whether a file is read.
    pub fn is_read(&self, file: FileId) -> bool
        requires { file < length self.now }
        ensures { result ≡ is_some (slice_index_or self.now file None) }
    {
        !matches!(self.state(file.index()), FileState::Unread)
    }

    /// Keeps what is known of a file that is read now.
    pub fn set(&mut self, file: FileId, state: FileState) -> Result<(), AllocError>
        requires { file < length self.old }
        ensures { OnOk result (self.new ≡ slice_set self.old file (seen_state state)) }
    {
        let Ok(place) = u32::try_from(self.records.len()) else {
            return Err(AllocError);
        };
        self.records.push(state)?;
        self.places[file.index()] = place;
        Ok(())
    }

    /// The include directive at a place among those of a file leads to this file too.
    pub fn lead(&mut self, file: FileId, index: usize, to: FileId)
        requires { file < length self.old }
        ensures { self.new ≡ slice_set self.old file
            (led_state index to (slice_index_or self.old file None)) }
    {
        let place = self.places[file.index()] as usize;
        if let FileState::Read(entries) = &mut self.records[place] {
            entries.lead(index, to);
        }
    }
}
