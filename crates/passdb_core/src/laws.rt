//! Laws of password files, each stated by the contract of a function that does nothing.
ghost use Rattle.passdb_core.specs.Entries.{OneTextHasOneFile, WrittenFilesAreRead};

/// One text is the file of one list of entries.
pub fn one_text_has_one_file()
    ensures { OneTextHasOneFile }
{}

/// What was written as the file of some entries is a file, which `Db::parse` does not refuse, and
/// it is read as these entries and no others.
pub fn written_files_are_read_again()
    ensures { WrittenFilesAreRead }
{}
