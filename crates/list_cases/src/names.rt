//! Names of different values, and their ranks, over `lut_stuff`.

use case_rows::{CaseStop, Row, Told};
use lut_stuff::{NameSet, Names, Ranks, known_len};
use std::alloc::Global;

/// Calls what stands behind `name.`
pub(crate) fn call(alloc: Global, row: &Row, told: &mut Told) -> Result<(), CaseStop> {
    match row.call.as_slice() {
        b"all" => name_all(alloc, row, told),
        b"sorted" => sorted(alloc, row, told),
        b"set" => count_different(row, told),
        b"len" => len(row, told),
        _ => Err(CaseStop::BadRow),
    }
}

/// `all VALUES VALUES ..`: of each list in turn whether all its values have names, these where they
/// have, how many values are named by then, and whether there are no names left.
fn name_all(alloc: Global, row: &Row, told: &mut Told) -> Result<(), CaseStop> {
    let mut names = Names::new();
    for at in 0..row.given.len() {
        let values = row.numbers::<u32>(alloc, at)?;
        let mut found = vec![in alloc; 77u8; values.len()]?;
        let is_named = names.name_all(&values, &mut found);
        told.word(is_named)?;
        if is_named {
            told.list(&found)?;
        }
        told.word(names.count())?;
        told.word(names.is_spent())?;
    }
    Ok(())
}

/// `sorted VALUES`: the different values in rising order, and how many ranks these have.
fn sorted(alloc: Global, row: &Row, told: &mut Told) -> Result<(), CaseStop> {
    let values = row.numbers::<u32>(alloc, 0)?;
    let mut names = Names::new();
    let mut found = vec![in alloc; 77u8; values.len()]?;
    if !names.name_all(&values, &mut found) {
        return Err(CaseStop::BadRow);
    }
    let mut rising = vec![in alloc; 0u32; names.count()]?;
    names.sort_into(&mut rising);
    told.list(&rising)?;
    told.word(Ranks::new(&rising).count())
}

/// `set NAMES NAMES ..`: how many different names there are at first, and in the lists together.
fn count_different(row: &Row, told: &mut Told) -> Result<(), CaseStop> {
    let mut set = NameSet::new();
    told.word(set.count())?;
    for names in &row.given {
        set.add_all(names);
    }
    told.word(set.count())
}

/// `len COUNT WIDTH DIFFERENT`: the length of the table form of so many numbers of so many bits, of
/// which so many are different.
fn len(row: &Row, told: &mut Told) -> Result<(), CaseStop> {
    let (count, width) = (row.number::<usize>(0)?, row.number::<u32>(1)?);
    if count > 1024 || width > 31 {
        return Err(CaseStop::BadRow);
    }
    told.fact(known_len(count, width, row.number(2)?))
}
