//! Laws of the fixed numbers: calls that do nothing, and whose contracts are the laws. Each number
//! is said by its value here, so that none is changed by a slip.
ghost use Rattle.std.specs.Prelude.{◌≡◌, ◌+◌, ◌*◌, ◌^◌, [], ◌∷◌};
ghost use Rattle.fixed_numbers.specs.Refusals.{of_sessions, of_merges, of_links, of_records};
ghost use Rattle.fixed_numbers.specs.Refusals.{of_files, of_devices, of_the_rest};

use crate::limits::{
    MAX_COUNT, MAX_COUNTER, MAX_DOCUMENTS, MAX_EDIT, MAX_LINE, MAX_LISTED, MAX_OPERATIONS,
    MAX_PENDING, MAX_PENDING_RECORDS, MAX_REPLICAS, MAX_STEPS, MAX_STREAM_LENGTH, MAX_TOLD,
    MAX_URL_LENGTH, MAX_VERSION,
};
use crate::sizes::{
    BODY_LENGTH, MAX_CONTENT, MAX_DATA_PAGES, MAX_LIVE_PAGES, MAX_PAGES, MAX_RECORD, MAX_TABLES,
    MAX_TOKEN_RECORD, MIN_RECORD, PAGE_SIZE, SLOTS_SIZE, TABLE_ENTRIES,
};

/// The numbers of all refusals: each is another one than the others.
pub fn refusals_have_their_numbers()
    ensures sessions { of_sessions ≡ 1 ∷ 2 ∷ 3 ∷ 4 ∷ 5 ∷ 6 ∷ 7 ∷ 8 ∷ 9 ∷ 10 ∷ 11 ∷ 12 ∷ [] }
    ensures merges { of_merges ≡ 20 ∷ 21 ∷ 22 ∷ 23 ∷ 24 ∷ [] }
    ensures links { of_links ≡ 25 ∷ 26 ∷ 27 ∷ [] }
    ensures records { of_records ≡ 30 ∷ 31 ∷ 32 ∷ 33 ∷ 34 ∷ 35 ∷ 36 ∷ [] }
    ensures files { of_files ≡ 40 ∷ 41 ∷ 42 ∷ 43 ∷ 44 ∷ 45 ∷ 46 ∷ 47 ∷ 48 ∷ [] }
    ensures devices { of_devices ≡ 50 ∷ 51 ∷ 52 ∷ 53 ∷ 54 ∷ [] }
    ensures others { of_the_rest ≡ 60 ∷ 70 ∷ 71 ∷ [] }
{}

/// The limits of ids, clocks and stores. One replica may have made all operations of a store.
pub fn limits_of_stores()
    ensures counters { MAX_COUNTER + 1 ≡ 2 ^ 48 }
    ensures versions { MAX_VERSION + 1 ≡ 2 ^ 64 }
    ensures names { MAX_REPLICAS ∷ MAX_DOCUMENTS ∷ [] ≡ 16 ∷ 1024 ∷ [] }
    ensures operations { MAX_COUNT ∷ MAX_OPERATIONS ∷ [] ≡ 2 ^ 24 ∷ 2 ^ 24 ∷ [] }
    ensures bytes { MAX_STREAM_LENGTH ∷ MAX_PENDING ∷ [] ≡ 2 ^ 30 ∷ 2 ^ 20 ∷ [] }
    ensures waiting { MAX_PENDING_RECORDS ≡ 83 * MAX_PENDING }
    ensures steps { MAX_STEPS ≡ 2 ^ 20 }
{}

/// The limits of edits, lines, answers and frames.
pub fn limits_of_requests()
    ensures edits { MAX_EDIT ∷ MAX_URL_LENGTH ∷ [] ≡ 256 ∷ 1024 ∷ [] }
    ensures lines { MAX_LINE ≡ 2 ^ 16 }
    ensures spans { MAX_LISTED ≡ 2 ^ 20 }
    ensures frames { MAX_TOLD ∷ MAX_CONTENT ∷ [] ≡ 64 ∷ 131068 ∷ [] }
{}

/// The lengths of records: a token adds sixteen bytes.
pub fn lengths_of_records()
    ensures range { MIN_RECORD ∷ MAX_RECORD ∷ [] ≡ 33 ∷ 1491 ∷ [] }
    ensures token { MAX_TOKEN_RECORD ≡ MAX_RECORD + 16 }
{}

/// A page has 4,096 bytes. Two slots take two pages, each a gate, seven bytes and a body; a table
/// page is full of numbers of four bytes.
pub fn pages_are_full()
    ensures page { PAGE_SIZE ≡ 2 ^ 12 }
    ensures slots { SLOTS_SIZE ≡ 2 * PAGE_SIZE }
    ensures body { 8 + BODY_LENGTH ≡ PAGE_SIZE }
    ensures entries { 4 * TABLE_ENTRIES ≡ PAGE_SIZE }
{}

/// The longest stream has the most data pages, for which the most table pages are just enough; a
/// root reaches both.
pub fn the_longest_stream_has_the_most_pages()
    ensures data { PAGE_SIZE * MAX_DATA_PAGES ≡ MAX_STREAM_LENGTH }
    ensures tables { TABLE_ENTRIES * MAX_TABLES ≡ MAX_DATA_PAGES }
    ensures live { MAX_LIVE_PAGES ≡ MAX_DATA_PAGES + MAX_TABLES }
    ensures asked { MAX_PAGES ≡ 2 ^ 30 }
{}
