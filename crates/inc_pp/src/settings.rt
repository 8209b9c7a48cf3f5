//! What the caller of a preprocessing sets.
ghost use Rattle.std.specs.Prelude.{◌≡◌, Some, None, if◌then◌else◌, ◌&&◌, option_map};
ghost use Rattle.std.specs.List.{list_all};
ghost use Rattle.inc_pp.specs.Settings as spec;

use inc_lookup::NamedDir;
use inc_text::Language;
use std::marker::Model;

/// What an include directive does whose header is not found.
#[derive(Clone, Copy, Debug, PartialEq, Eq)]
pub enum Missing {
    /// It stops the preprocessing.
    Stop,
    /// Nothing.
    Empty,
}

/// Language, date and time, what an include directive does whose header is not found, whether lines are marked, how files are called, and
/// how much is read and put out at most.
#[derive(Drop)]
pub struct Settings<'n> {
    language: Language,
    date: [u8; 11],
    time: [u8; 8],
    timestamp: [u8; 24],
    missing: Missing,
    has_markers: bool,
    source: Option<&'n [u8]>,
    dirs: &'n [NamedDir<'n>],
    most_read: Option<u64>,
    most_output: Option<u64>,
}

impl<'n> Model for Settings<'n> {
    ghost use Rattle.std.specs.Prelude.{option_map};
    ghost use Rattle.inc_pp.specs.Settings.{Settings};

    ghost Value = { Settings };

    ghost view = { λ s. record {
      language = s.language;
      date = s.date;
      time = s.time;
      timestamp = s.timestamp;
      missing = s.missing;
      has_markers = s.has_markers;
      source = option_map (λ n. n.now) s.source;
      dirs = s.dirs.now;
      most_read = s.most_read;
      most_output = s.most_output;
    } };
}

impl<'n> Settings<'n> {
    /// Without line markers, names of the source and of directories, and a limit; `None` where a byte of the date, the time or the
    /// timestamp is not printable ASCII, or is `"` or `\`.
    pub fn new(
        language: Language,
        date: [u8; 11],
        time: [u8; 8],
        timestamp: [u8; 24],
        missing: Missing,
    ) -> Option<Settings<'n>>
        ensures { result ≡ spec.settings_of language date time timestamp missing }
    {
        if !are_date_bytes(&date) || !are_date_bytes(&time) || !are_date_bytes(&timestamp) {
            return None;
        }
        Some(Settings {
            language,
            date,
            time,
            timestamp,
            missing,
            has_markers: false,
            source: None,
            dirs: &[],
            most_read: None,
            most_output: None,
        })
    }

    /// The date `Jan  1 1970`, the time `00:00:00` and the timestamp of both, without line markers, names and limits.
    pub fn usual(language: Language, missing: Missing) -> Settings<'n>
        ensures { result ≡ spec.usual_settings language missing }
    {
        Settings {
            language,
            date: *b"Jan  1 1970",
            time: *b"00:00:00",
            timestamp: *b"Thu Jan  1 00:00:00 1970",
            missing,
            has_markers: false,
            source: None,
            dirs: &[],
            most_read: None,
            most_output: None,
        }
    }

    /// The same, but for these.
    fn with(
        &self,
        has_markers: bool,
        source: Option<&'n [u8]>,
        dirs: &'n [NamedDir<'n>],
        most_read: Option<u64>,
        most_output: Option<u64>,
    ) -> Settings<'n>
        ensures { result ≡ record self.now {
          has_markers = has_markers;
          source = option_map (λ n. n.now) source.entry;
          dirs = dirs.now;
          most_read = most_read;
          most_output = most_output;
        } }
    {
        Settings {
            language: self.language,
            date: self.date,
            time: self.time,
            timestamp: self.timestamp,
            missing: self.missing,
            has_markers,
            source,
            dirs,
            most_read,
            most_output,
        }
    }

    /// The same, with line markers or without: lines `# LINE "FILE"`, which say what line of what file the next one is from. A compiler
    /// goes on with a text that has them as with the file itself.
    pub fn with_markers(&self, has_markers: bool) -> Settings<'n>
        ensures { result ≡ spec.marked_settings has_markers self.now }
    {
        self.with(
            has_markers,
            self.source,
            self.dirs,
            self.most_read,
            self.most_output,
        )
    }

    /// The same, with the path by which the source is named: GNU C calls it and the headers beside it by that. Without one it is called
    /// by its path in the list of files.
    pub fn with_source(&self, source: &'n [u8]) -> Settings<'n>
        ensures { result ≡ spec.sourced_settings source.now self.now }
    {
        self.with(
            self.has_markers,
            Some(source),
            self.dirs,
            self.most_read,
            self.most_output,
        )
    }

    /// The same, with the directories of the include path, one for each that the project has, in its order. GNU C calls the headers
    /// in them by their names; markers say which lines are of a system header, in each language. A header of a directory that is not
    /// among them is called by its path in the list of files, and is none of the system's.
    pub fn with_dirs(&self, dirs: &'n [NamedDir<'n>]) -> Settings<'n>
        ensures { result ≡ spec.found_in_settings dirs.now self.now }
    {
        self.with(
            self.has_markers,
            self.source,
            dirs,
            self.most_read,
            self.most_output,
        )
    }

    /// The same, with a limit of the bytes that are read, or without one: those of the source and of each file that it includes, of one
    /// that is read twice twice. Where the bytes of a file pass it, the preprocessing stops.
    pub fn with_most_read(&self, most_read: Option<u64>) -> Settings<'n>
        ensures { result ≡ spec.limited_settings most_read self.now }
    {
        self.with(
            self.has_markers,
            self.source,
            self.dirs,
            most_read,
            self.most_output,
        )
    }

    /// The same, with a limit of the bytes of the text that is put out, or without one. Where a run of text lines or a pragma passes it, the
    /// preprocessing stops, and puts out nothing of them.
    pub fn with_most_output(&self, most_output: Option<u64>) -> Settings<'n>
        ensures { result ≡ spec.bounded_settings most_output self.now }
    {
        self.with(
            self.has_markers,
            self.source,
            self.dirs,
            self.most_read,
            most_output,
        )
    }

    /// The language.
    pub fn language(&self) -> Language
        ensures { result ≡ self.now.language }
    {
        self.language
    }

    /// The date.
    pub(crate) fn date(&self) -> [u8; 11]
        ensures { result ≡ self.now.date }
    {
        self.date
    }

    /// The time.
    pub(crate) fn time(&self) -> [u8; 8]
        ensures { result ≡ self.now.time }
    {
        self.time
    }

    /// The timestamp.
    pub(crate) fn timestamp(&self) -> [u8; 24]
        ensures { result ≡ self.now.timestamp }
    {
        self.timestamp
    }

    /// What an include directive does whose header is not found.
    pub fn missing(&self) -> Missing
        ensures { result ≡ self.now.missing }
    {
        self.missing
    }

    /// Whether lines are marked.
    pub(crate) fn has_markers(&self) -> bool
        ensures { result ≡ self.now.has_markers }
    {
        self.has_markers
    }

    /// The path by which the source is named, if there is one.
    pub(crate) fn source(&self) -> Option<&'n [u8]>
        ensures { option_map (λ n. n.now) result ≡ self.now.source }
    {
        self.source
    }

    /// What the source is called, where there is a name for it.
    pub(crate) fn base(&self) -> &'n [u8]
        ensures { result.now ≡ spec.base_of self.now }
    {
        match self.source {
            Some(source) => source,
            None => &[],
        }
    }

    /// Whether so many bytes are more than may be read.
    pub(crate) fn is_too_much(&self, bytes: u64) -> bool
        ensures { result ≡ spec.is_too_much self.now.most_read bytes }
    {
        is_too_much(self.most_read, bytes)
    }

    /// How many bytes the text of what is put out has at most, if there is a limit.
    pub(crate) fn most_output(&self) -> Option<u64>
        ensures { result ≡ self.now.most_output }
    {
        self.most_output
    }

    /// The directories of the include path.
    pub(crate) fn dirs(&self) -> &'n [NamedDir<'n>]
        ensures { result.now ≡ self.now.dirs }
    {
        self.dirs
    }
}

/// Whether so many bytes are more than a limit, if there is one.
pub(crate) fn is_too_much(most: Option<u64>, bytes: u64) -> bool
    ensures { result ≡ spec.is_too_much most bytes }
{
    match most {
        Some(most) => bytes > most,
        None => false,
    }
}

/// Whether all bytes may be in a date or a time.
fn are_date_bytes(bytes: &[u8]) -> bool
    ensures { result ≡ list_all spec.is_date_byte bytes.now }
{
    bytes.iter().all(|byte| is_date_byte(*byte))
}

/// Printable ASCII other than `"` and `\`.
fn is_date_byte(byte: u8) -> bool
    ensures { result ≡ spec.is_date_byte byte }
{
    (32..=126).contains(&byte) && byte != b'"' && byte != b'\\'
}
