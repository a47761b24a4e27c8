//! Whole replies compared.

use crate::asked::Asked;
use crate::plain_told::{Told, plain_told};
use crate::product_told::product_told;
use addr2line::{Reply, UnitToken};
use gimli::Dwarf;
use gimli::read::{Error, Reader};
use std::alloc::{AllocError, Global};
use std::rc::Rc;

/// A call whose two replies differ. Without one the units of the file differ, or how many replies
/// there are.
#[derive(Debug, Drop)]
pub struct Difference {
    /// The call, and its place among the calls.
    pub asked: Option<(usize, Asked)>,
    /// What the plain lookup replies, written out.
    pub plain: String,
    /// What the other replies.
    pub product: String,
}

/// What the comparison of one file comes to.
#[derive(Debug, Drop)]
pub enum Outcome {
    /// So many replies are equal; none where both refuse the file alike.
    Same(usize),
    /// The first that isn't.
    Differs(Difference),
    /// A growth was refused: nothing is compared.
    OutOfMemory,
}

// The first call whose replies differ.
fn first_difference(
    alloc: Global,
    plain: &Told,
    product: &[Reply],
) -> Result<Option<Difference>, AllocError> {
    let calls = plain.asked.iter().zip(plain.replies.iter().zip(product));
    for (place, (asked, (ours, theirs))) in calls.enumerate() {
        if ours != theirs {
            return Ok(Some(Difference {
                asked: Some((place, *asked)),
                plain: format!(in alloc; "{ours:?}")?,
                product: format!(in alloc; "{theirs:?}")?,
            }));
        }
    }
    Ok(None)
}

fn compare_replies(alloc: Global, plain: &Told, product: &[Reply]) -> Outcome {
    if plain.replies.len() != product.len() {
        return differing_files(alloc, None, None);
    }
    match first_difference(alloc, plain, product) {
        Ok(Some(difference)) => Outcome::Differs(difference),
        Ok(None) => Outcome::Same(product.len()),
        Err(_) => Outcome::OutOfMemory,
    }
}

// The units differ: these are their faults.
fn differing_files(alloc: Global, plain: Option<Error>, product: Option<Error>) -> Outcome {
    match (
        format!(in alloc; "{plain:?}"),
        format!(in alloc; "{product:?}"),
    ) {
        (Ok(plain), Ok(product)) => Outcome::Differs(Difference {
            asked: None,
            plain,
            product,
        }),
        _ => Outcome::OutOfMemory,
    }
}

fn outcome_of(
    alloc: Global,
    plain: &Result<Told, Error>,
    product: &Result<Vec<Reply>, Error>,
) -> Outcome {
    match (plain, product) {
        (Err(Error::OutOfMemory), _) | (_, Err(Error::OutOfMemory)) => Outcome::OutOfMemory,
        (Ok(plain), Ok(product)) => compare_replies(alloc, plain, product.as_slice()),
        (Err(plain), Err(product)) if *plain == *product => Outcome::Same(0),
        (plain, product) => {
            let faults = [
                plain.as_ref().err().copied(),
                product.as_ref().err().copied(),
            ];
            differing_files(alloc, faults[0], faults[1])
        }
    }
}

fn compare_shared<R: Reader>(
    alloc: Global,
    main: &Rc<Dwarf<R>>,
    split: &Rc<Dwarf<R>>,
    tokens: &[UnitToken],
) -> Outcome {
    let plain = plain_told(alloc, main, split, tokens);
    let asked: &[Asked] = match &plain {
        Ok(told) => told.asked.as_slice(),
        Err(_) => &[],
    };
    let product = match main.clone() {
        Ok(main) => product_told(alloc, main, split, asked, tokens),
        Err(_) => Err(Error::OutOfMemory),
    };
    outcome_of(alloc, &plain, &product)
}

/// The replies of both lookups over a file and the split file of its units.
pub fn compare_files<R: Reader>(
    alloc: Global,
    main: Dwarf<R>,
    split: Dwarf<R>,
    tokens: &[UnitToken],
) -> Outcome {
    match (Rc::new(alloc, main), Rc::new(alloc, split)) {
        (Ok(main), Ok(split)) => compare_shared(alloc, &main, &split, tokens),
        _ => Outcome::OutOfMemory,
    }
}
