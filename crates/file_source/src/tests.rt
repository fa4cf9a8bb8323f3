// Standard input of the test, which is empty or at its end.
use crate::StdinSource;
use base_devices::Failed;
use base_source::Source;
use std::process::Abort;

#[test]
fn empty_slice_takes_nothing(rt: HostRuntime) {
    let mut source = StdinSource::new(rt);
    assert_eq!(rt; source.read(&mut []), Ok(0));
}
