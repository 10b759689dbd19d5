// The C interface: thin exports. Each has the contract of the function that it calls, and beside it what the theorems say of that very call:
// check, read, search, write, import, comparison and session are decided by the rules of their formats, and what is written can be stored so that no cut
// leaves a wrong file. include/zs.h documents the interface for callers.
//
// C can't receive a slice as a result, so zs_record, zs_metadata, zs_store and zs_show hand back where the part lies.
#![tactic(auto)]

ghost use Rattle.std.specs.Prelude.{true, [], ◌∷◌, ◌↔◌, ◌≡◌, length};
ghost use Rattle.output_list.specs.OutputList.{zeros};
ghost use Rattle.header.specs.Metadata.{Metadata, is_metadata};
ghost use Rattle.header.specs.MetadataPart.{metadata_part};
ghost use Rattle.query.specs.Query.{query_of};
ghost use Rattle.reader.specs.Read.{read_of, read_answer, read_list};
ghost use Rattle.record.specs.Record.{is_within, part_start, part_length};
ghost use Rattle.checker.specs.Check.{check_of, check_answer};
ghost use Rattle.search.specs.Search.{search_of, search_answer, opened_list, result_list};
ghost use Rattle.written.specs.Written.{written_answer, written_output};
ghost use Rattle.writer.specs.Write.{write_of};
ghost use Rattle.session_value.specs.Stage.{Stage};
ghost use Rattle.session_value.specs.Stage as stages;
ghost use Rattle.session_value.specs.Steps.{begin_of, add_of, close_of, finish_of, after};
ghost use Rattle.session_value.specs.Held.{Held, StepTaken, OneOf, session_of};
ghost use Rattle.stores.specs.FileStores.{store_part};
ghost use Rattle.sim_import.specs.Import.{import_of};
ghost use Rattle.shown.specs.Shown.{part_shown};
ghost use Rattle.comparer.specs.Compare.{compare_answer, compare_list};
ghost use Rattle.theorems_check.specs.CheckedByRules.{CheckedByRules};
ghost use Rattle.theorems_read.specs.ReadByRules.{ReadByRules};
ghost use Rattle.theorems_read.specs.Pairs.{ReadUnpacks};
ghost use Rattle.theorems_search.specs.SearchedByRules.{SearchedByRules};
ghost use Rattle.theorems_search.specs.Locality.{SearchedLocally};
ghost use Rattle.theorems_search.specs.SearchPairs.{SearchUnpacks};
ghost use Rattle.theorems_write.specs.WrittenByRules.{WrittenByRules};
ghost use Rattle.theorems_session.specs.SessionByRules.{SessionByRules};
ghost use Rattle.theorems_stores.specs.StoredByRules.{StoreByRules, WrittenInStores};
ghost use Rattle.theorems_import.specs.ImportedByRules.{ImportedByRules};
ghost use Rattle.theorems_compare.specs.ComparedByRules.{ComparedByRules};

use checker::Checked;
use comparer::Compared;
use part::Part;
use query::Query;
use reader::ReadAnswer;
use search::Found;
use session_value::{Session, Stepped};
use shown::place::Shown;
use written::Written;

// Reads the file front to back (`reader::read`).
#[unsafe(no_mangle)]
pub extern "C" fn zs_read(
    file: &[u8],
    start: &[u8],
    stop_given: bool,
    stop: &[u8],
    prefix: &[u8],
    results: &mut [u64],
) -> ReadAnswer
    ensures value { result ≡ read_answer (read_of file.now
        (query_of start.now stop_given stop.now prefix.now) (length results.old)) }
    ensures results_after { results.new ≡ read_list (length results.old) (read_of file.now
        (query_of start.now stop_given stop.now prefix.now) (length results.old)) }
    ensures read_by_rules { ReadByRules file.now
        (query_of start.now stop_given stop.now prefix.now)
        (length results.old) result results.new }
    ensures read_unpacks { ReadUnpacks file.now
        (query_of start.now stop_given stop.now prefix.now)
        (length results.old) result results.new }
{
    let query = Query::new(start, stop_given, stop, prefix);
    reader::read(file, query, results)
}

// Checks the file (`checker::check`).
#[unsafe(no_mangle)]
pub extern "C" fn zs_check(file: &[u8], work: &mut [u64]) -> Checked
    ensures value { result ≡ check_answer (check_of file.now (length work.old)) }
    ensures work_after { work.new ≡ zeros (length work.old) }
    ensures checked_by_rules { CheckedByRules file.now (length work.old) result }
{
    checker::check(file, work)
}

// Searches the file through its index (`search::search`).
#[unsafe(no_mangle)]
pub extern "C" fn zs_search(
    file: &[u8],
    start: &[u8],
    stop_given: bool,
    stop: &[u8],
    prefix: &[u8],
    opened: &mut [u64],
    results: &mut [u64],
) -> Found
    ensures value { result ≡ search_answer (search_of file.now
        (query_of start.now stop_given stop.now prefix.now)
        (length opened.old) (length results.old)) }
    ensures opened_after { opened.new ≡ opened_list (length opened.old) (search_of file.now
        (query_of start.now stop_given stop.now prefix.now)
        (length opened.old) (length results.old)) }
    ensures results_after { results.new ≡ result_list (length results.old) (search_of file.now
        (query_of start.now stop_given stop.now prefix.now)
        (length opened.old) (length results.old)) }
    ensures searched_by_rules { SearchedByRules file.now
        (query_of start.now stop_given stop.now prefix.now)
        (length opened.old) (length results.old) result opened.new results.new }
    ensures searched_locally { SearchedLocally file.now
        (query_of start.now stop_given stop.now prefix.now)
        (length opened.old) (length results.old) result opened.new results.new }
    ensures search_unpacks { SearchUnpacks file.now
        (query_of start.now stop_given stop.now prefix.now)
        (length opened.old) (length results.old) result opened.new results.new }
{
    let query = Query::new(start, stop_given, stop, prefix);
    search::search(file, query, opened, results)
}

// Where the part of `length` bytes from `offset` on lies; offset and length 0 where it isn't within the file.
#[tactic(auto, unfolding(record::specs::Record::part_of, record::specs::Record::part_start, record::specs::Record::part_length))]
#[unsafe(no_mangle)]
pub extern "C" fn zs_record(file: &[u8], offset: u64, length: u64) -> Part
    ensures { result ≡ record { offset = part_start file.now offset length; length = part_length file.now offset length } }
{
    record::part_of(file, offset, length)
}

// Whether the part of `length` bytes from `offset` on lies within the file.
#[unsafe(no_mangle)]
pub extern "C" fn zs_within(file: &[u8], offset: u64, length: u64) -> bool
    ensures { result ≡ is_within file.now offset length }
{
    record::is_within(file, offset, length)
}

// Where the metadata lie (`header::metadata`); offset and length 0 where the header isn't sound.
#[unsafe(no_mangle)]
pub extern "C" fn zs_metadata(file: &[u8]) -> Part
    ensures { result ≡ metadata_part file.now }
{
    header::metadata(file)
}

// Whether the bytes keep the metadata rule (`header::is_metadata`): one JSON object.
#[unsafe(no_mangle)]
pub extern "C" fn zs_is_metadata(bytes: &[u8]) -> bool
    ensures value { result ≡ is_metadata bytes.now }
    ensures variant { (result ≡ true) ↔ Metadata bytes.now }
{
    header::is_metadata(bytes)
}

// Writes a file (`writer::write`).
#[unsafe(no_mangle)]
pub extern "C" fn zs_write(
    metadata: &[u8],
    records: &[u8],
    per_block: u64,
    per_index: u64,
    output: &mut [u8],
) -> Written
    ensures value { result ≡ written_answer
        (write_of metadata.now records.now per_block per_index (length output.old)) }
    ensures output_after { output.new ≡ written_output (length output.old)
        (write_of metadata.now records.now per_block per_index (length output.old)) }
    ensures written_by_rules { WrittenByRules metadata.now records.now per_block per_index
        (length output.old) result output.new }
    ensures written_in_stores { WrittenInStores metadata.now records.now per_block per_index
        (length output.old) result output.new }
{
    writer::write(metadata, records, per_block, per_index, output)
}

// Starts a writing session afresh, on any output (`session::start_afresh`).
#[unsafe(no_mangle)]
pub extern "C" fn zs_session_afresh(output: &mut [u8]) -> Session
    ensures value { result ≡ session_of stages.afresh }
    ensures output_after { output.new ≡ zeros (length output.old) }
    ensures held { Held stages.afresh result output.new × SessionByRules stages.afresh result output.new }
{
    session::start_afresh(output)
}

// Begins a file in a session (`session::begin`).
#[unsafe(no_mangle)]
pub extern "C" fn zs_session_begin(
    session: Session,
    metadata: &[u8],
    per_block: u64,
    per_index: u64,
    output: &mut [u8],
) -> Stepped
    ensures step_taken { (stage : Stage) → Held stage session output.old
        → StepTaken stage (begin_of stage metadata.now per_block per_index (length output.old))
        (length output.old) result output.new
        × SessionByRules (after stage (begin_of stage metadata.now per_block per_index (length output.old)))
        result.session output.new }
    ensures one_of { OneOf (0 ∷ 28 ∷ 30 ∷ 9 ∷ 31 ∷ []) result.number }
{
    session::begin(session, metadata, per_block, per_index, output)
}

// Adds a record in a session (`session::add`).
#[unsafe(no_mangle)]
pub extern "C" fn zs_session_add(session: Session, record: &[u8], output: &mut [u8]) -> Stepped
    ensures step_taken { (stage : Stage) → Held stage session output.old
        → StepTaken stage (add_of stage «record».now (length output.old))
        (length output.old) result output.new
        × SessionByRules (after stage (add_of stage «record».now (length output.old))) result.session output.new }
    ensures one_of { OneOf (0 ∷ 28 ∷ 29 ∷ 31 ∷ []) result.number }
{
    session::add(session, record, output)
}

// Closes the open block of a session (`session::close_block`).
#[unsafe(no_mangle)]
pub extern "C" fn zs_session_close(session: Session, output: &[u8]) -> Stepped
    ensures step_taken { (stage : Stage) → Held stage session output.now
        → StepTaken stage (close_of stage) (length output.now) result output.now
        × SessionByRules (after stage (close_of stage)) result.session output.now }
    ensures one_of { OneOf (0 ∷ 28 ∷ []) result.number }
{
    session::close_block(session, output)
}

// Finishes the file of a session (`session::finish`).
#[unsafe(no_mangle)]
pub extern "C" fn zs_session_finish(session: Session, output: &mut [u8]) -> Stepped
    ensures step_taken { (stage : Stage) → Held stage session output.old
        → StepTaken stage (finish_of stage (length output.old)) (length output.old) result output.new
        × SessionByRules (after stage (finish_of stage (length output.old))) result.session output.new }
    ensures one_of { OneOf (0 ∷ 28 ∷ 31 ∷ []) result.number }
{
    session::finish(session, output)
}

// Where store i of a finished file goes, and how long it is (`stores::store`); offset and length 0 where there is none.
#[unsafe(no_mangle)]
pub extern "C" fn zs_store(file: &[u8], i: u64) -> Part
    ensures value { result ≡ store_part file.now i }
    ensures store_by_rules { StoreByRules file.now i result }
{
    stores::store(file, i)
}

// Imports a dump of a SIM phonebook (`sim_import::import_sim`).
#[unsafe(no_mangle)]
pub extern "C" fn zs_import_sim(dump: &[u8], name_length: u64, output: &mut [u8]) -> Written
    ensures value { result ≡ written_answer (import_of dump.now name_length (length output.old)) }
    ensures output_after { output.new ≡ written_output (length output.old)
        (import_of dump.now name_length (length output.old)) }
    ensures imported_by_rules { ImportedByRules dump.now name_length (length output.old) result output.new }
{
    sim_import::import_sim(dump, name_length, output)
}

// Compares two files (`comparer::compare_files`).
#[unsafe(no_mangle)]
pub extern "C" fn zs_compare<'a>(
    first: &'a [u8],
    second: &'a [u8],
    work: &mut [u64],
    list: &mut [u64],
) -> Compared
    ensures value { result ≡ compare_answer first.now second.now (length work.old) (length list.old) }
    ensures list_after { list.new
        ≡ compare_list first.now second.now (length work.old) (length list.old) }
    ensures work_after { work.new ≡ zeros (length work.old) }
    ensures compared_by_rules { ComparedByRules first.now second.now (length work.old) (length list.old)
        result list.new }
{
    comparer::compare_files(first, second, work, list)
}

// Where a record lies that a comparison lists (`shown::place::part_shown`); no bytes of the first file at 0 where the numbers name no part.
#[unsafe(no_mangle)]
pub extern "C" fn zs_show(
    first: &[u8],
    second: &[u8],
    which: u64,
    offset: u64,
    length: u64,
) -> Shown
    ensures { result ≡ part_shown first.now second.now which offset length }
{
    shown::place::part_shown(first, second, which, offset, length)
}
