//! The texts of a report's faults.
use pb_script::ReportFault;
use std::alloc::AllocError;
use std::rt::HostRuntime;
use test_fixtures::refused;

#[test]
fn reports_tell_faults_as_text(rt: HostRuntime) -> Result<(), AllocError> {
    let alloc = rt.alloc();
    let memory = refused(alloc).err().expect(&rt, "no block is so large");
    let mut text = String::new(alloc);
    writeln!(text, "{}", ReportFault::Output)?;
    writeln!(text, "{}", ReportFault::NoMemory(memory))?;
    assert!(rt; text.as_str() == "cannot write the output\nno memory\n");
    Ok(())
}
