//! Rows about cuttings of the trees of a signature, and the jobs of their ranges (ours).
ghost use Rattle.std.specs.Prelude.{◌≡◌};

use crate::row::Row;
use arrayvec::ArrayVec;
use slh_subtrees::{
    CutFault, CutTree, Cuts, Cutting, JobRange, JobTree, job, keygen_job, keygen_jobs, sign_jobs,
};

/// How the trees of one kind are to be cut.
#[derive(Drop)]
struct AskedCuts {
    levels: Option<u32>,
    points: ArrayVec<u32, 256>,
}

/// The next two fields: `levels` and their number, or `points` and the cut points between commas.
fn asked(row: &mut Row) -> AskedCuts {
    let kind = row.text();
    let mut asked = AskedCuts {
        levels: None,
        points: ArrayVec::new(),
    };
    match kind {
        "levels" => asked.levels = Some(row.word()),
        "points" => put_points(row, &mut asked.points),
        _ => row.refuse(),
    }
    asked
}

/// The numbers between the commas of the next field.
fn put_points(row: &mut Row, points: &mut ArrayVec<u32, 256>) {
    let text = row.text();
    if text.is_empty() {
        return;
    }
    for word in text.split(',') {
        match word.parse::<u32>() {
            Ok(point) => {
                if points.try_push(point).is_err() {
                    row.refuse();
                }
            }
            Err(_) => row.refuse(),
        }
    }
}

impl AskedCuts {
    fn cuts(&self) -> Cuts<'_> {
        match self.levels {
            Some(levels) => Cuts::Levels(levels),
            None => Cuts::Points(self.points.as_slice()),
        }
    }
}

/// The cutting of the next five fields: a set, how its XMSS trees and how its FORS trees are cut.
fn cutting_of(row: &mut Row) -> Result<Cutting, CutFault> {
    let set = row.set();
    let xmss = asked(row);
    let fors = asked(row);
    let cutting = Cutting::new(set, xmss.cuts(), fors.cuts())?;
    row.is_true(cutting.set() == set);
    Ok(cutting)
}

/// A cutting; the numbers of signing jobs, of jobs of key generation and of ranges of a FORS tree. An XMSS tree has as
/// many ranges as key generation has jobs.
pub fn jobs(row: &mut Row) {
    let Ok(cutting) = cutting_of(row) else {
        return row.refuse();
    };
    row.is_number(sign_jobs(&cutting) as u64);
    row.is_number(keygen_jobs(&cutting) as u64);
    row.is_number(cutting.fors_ranges() as u64);
    row.is_true(cutting.xmss_ranges() == keygen_jobs(&cutting));
}

/// The next four fields are the tree and the leaves of a job.
fn is_range(row: &mut Row, range: &JobRange) {
    match range.tree {
        JobTree::Xmss(layer) => {
            row.is_text("XMSS");
            row.is_number(layer as u64);
        }
        JobTree::Fors(number) => {
            row.is_text("FORS");
            row.is_number(number as u64);
        }
    }
    row.is_number(range.lo as u64);
    row.is_number(range.hi as u64);
}

/// A cutting, a number of a signing job; its tree, its first leaf and the one past its last leaf.
pub fn job_row(row: &mut Row) {
    let Ok(cutting) = cutting_of(row) else {
        return row.refuse();
    };
    let number = row.word();
    if number < sign_jobs(&cutting) {
        is_range(row, &job(&cutting, number));
    } else {
        row.refuse();
    }
}

/// As above, for key generation.
pub fn keygen_job_row(row: &mut Row) {
    let Ok(cutting) = cutting_of(row) else {
        return row.refuse();
    };
    let number = row.word();
    if number < keygen_jobs(&cutting) {
        is_range(row, &keygen_job(&cutting, number));
    } else {
        row.refuse();
    }
}

/// A cutting, the layer of an XMSS tree, the number of a FORS tree; the numbers of their first jobs.
pub fn first_job(row: &mut Row) {
    let Ok(cutting) = cutting_of(row) else {
        return row.refuse();
    };
    let (layer, number) = (row.layer(), row.word());
    if layer as u32 >= cutting.set().d() || number >= cutting.set().k() {
        return row.refuse();
    }
    row.is_number(cutting.first_job(JobTree::Xmss(layer)) as u64);
    row.is_number(cutting.first_job(JobTree::Fors(number)) as u64);
}

/// A cutting that is refused; the refusal, the kind of tree and the place in its list of what is wrong.
pub fn bad_cutting(row: &mut Row) {
    match cutting_of(row) {
        Ok(_) => row.refuse(),
        Err(fault) => {
            row.is_refusal(fault.number(), fault.name());
            let CutFault::BadCutting { tree, place } = fault;
            match tree {
                CutTree::Xmss => row.is_text("XMSS"),
                CutTree::Fors => row.is_text("FORS"),
            }
            row.is_number(place as u64);
        }
    }
}
