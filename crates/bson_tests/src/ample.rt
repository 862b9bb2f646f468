//! With ample memory no call is out of memory: these are the checks of `memory` that don't allow it. A contract
//! allows out of memory wherever a call takes memory, so a body that always gave up would be proved.

use crate::fixtures::{ALL_KINDS, BOOLEAN_TWO, Checks, KEY_NOT_UTF8, NESTED_STOP, ONE_INT32, view};
use crate::memory::{buffers, copies, errors, pairs, replacing, trees, validation, writing};
use crate::tables::{rows_of_getters, rows_to_a_key};
use std::process::Abort;

#[test]
fn views_with_ample_memory(rt: HostRuntime) {
    let checks = Checks::ample(rt.alloc());
    rows_to_a_key(checks, &rt);
    rows_of_getters(checks, &rt);
    assert!(rt;
        errors::are_copied(checks, view(&rt, BOOLEAN_TWO))
            && errors::is_text_copied(checks, view(&rt, KEY_NOT_UTF8))
            && pairs::is_ordered(checks)
    );
}

#[test]
fn copies_with_ample_memory(rt: HostRuntime) {
    let checks = Checks::ample(rt.alloc());
    assert!(rt;
        copies::are_copied(checks, view(&rt, ALL_KINDS))
            && copies::has_fault(checks, view(&rt, BOOLEAN_TWO))
            && copies::is_made(checks, "a")
            && copies::are_buffers_copied(checks)
    );
}

#[test]
fn buffers_with_ample_memory(rt: HostRuntime) {
    let checks = Checks::ample(rt.alloc());
    assert!(rt;
        buffers::are_empty(checks)
            && buffers::are_appended(checks)
            && buffers::is_key_refused(checks)
            && buffers::is_first_appended(checks, view(&rt, ONE_INT32))
            && buffers::are_pushed(checks)
            && buffers::are_collected(checks)
    );
}

#[test]
fn trees_with_ample_memory(rt: HostRuntime) {
    let checks = Checks::ample(rt.alloc());
    trees::forms(&rt, checks);
    assert!(rt;
        trees::is_view_read(checks, view(&rt, trees::OTHER_SPELLING))
            && trees::are_buffers_read(checks)
            && trees::are_parts_written(checks)
            && trees::are_values_right(checks, view(&rt, trees::PARTS))
            && trees::are_levels_form(checks, 499)
            && writing::are_written(checks)
            && writing::is_nul_found(checks)
    );
}

#[test]
fn places_and_forms_with_ample_memory(rt: HostRuntime) {
    let checks = Checks::ample(rt.alloc());
    validation::breaches(&rt, checks);
    validation::keys(&rt, checks);
    replacing::replaced(&rt, checks);
    assert!(rt;
        validation::is_stopped(checks, view(&rt, NESTED_STOP))
            && validation::is_flattened(checks, view(&rt, ALL_KINDS))
            && validation::are_forms(checks)
    );
}
