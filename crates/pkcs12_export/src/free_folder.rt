//! The place of the output.
use command_base::Origin;
use pkcs12_arguments::Export;
use pkcs12_opening::{Failure, Surroundings, inputs_differ, path_of_store};
use pkcs12_output::Folder;
use std::fs::File;
use std::rt::{Env, Files};

/// `Usage` where `--force` would remove the file in which this password is.
fn password_stays<R: Files + AllocGlobal>(
    rt: &R,
    folder: &Folder<'_>,
    origin: Option<Origin<'_>>,
) -> Result<(), Failure> {
    match origin {
        Some(Origin::Variable(_)) | None => Ok(()),
        Some(origin) => Ok(folder.keeps(rt, origin.path())?),
    }
}

/// The folder that is to be made, where it may be made and no file that is read would go with it. It is looked at before any
/// work is done. `Usage` where the store and the passwords come from one input, or `--force` would remove a file that is read;
/// `OutputExists` or `WriteFault` where the folder cannot be made.
pub fn find_folder<'a, R: Files<File = File> + Env + Eprint + AllocGlobal + Clone + Drop>(
    rt: &R,
    around: Surroundings,
    asked: &Export<'a>,
) -> Result<Folder<'a>, Failure> {
    inputs_differ(rt, asked.store, asked.password, asked.new_password)?;
    let folder = Folder::find(rt, asked.target.out, asked.target.force, around.process)?;
    folder.keeps(rt, path_of_store(asked.store))?;
    password_stays(rt, &folder, asked.password)?;
    password_stays(rt, &folder, asked.new_password)?;
    Ok(folder)
}
