//! Numbers and names of refusals.
use super::equal;
use slh_io::Writer;
use slh_tool::{Fault, refuse};
use slh_vectors::Member;

#[test]
fn a_fault_has_its_number_and_name(rt: HostRuntime) {
    equal(&rt, &Fault::BadSeeds.number(), &34);
    equal(&rt, &Fault::BadSeeds.name(), &"BadSeeds");
}

/// No run gets this refusal from hardware that works.
#[test]
fn two_results_that_differ_are_told_as_a_fault(rt: HostRuntime) {
    let mut errors = Writer::new(Vec::new(rt.alloc()));
    equal(&rt, &refuse(&mut errors, Fault::RunsDiffer), &2);
    equal(
        &rt,
        &errors.into_inner().as_slice(),
        &b"slh: 38 Fault\n".as_slice(),
    );
}

#[test]
fn a_fault_of_a_member_has_its_number_and_name(rt: HostRuntime) {
    let fault = Fault::Missing {
        test: 1,
        member: Member::Kind,
    };
    equal(&rt, &fault.number(), &23);
    equal(&rt, &fault.name(), &"Missing");
}
