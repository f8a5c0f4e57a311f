// names: prints every name that a registry gives a type, a line each: registry, type, name.
#![tactic(auto)]

use std::io;

// Prints one line.
fn print_line(rt: &impl Print, registry: u64, t: u64, name: &[u8]) -> io::Result<()> {
    print!(rt; "{registry} {t} ")?;
    rt.write_all(name)?;
    rt.println("")
}

// Prints the line of one type, or nothing where it has no name.
fn show(rt: &impl Print, registry: u64, t: u64) -> io::Result<()> {
    // Longer than every name.
    let mut text = [0u8; 64];
    match registry::name(registry, t, &mut text) {
        Ok(done) if 0 < done.written => print_line(rt, registry, t, &text[..done.written]),
        _ => Ok(()),
    }
}

// Prints the names of one registry.
fn show_registry(rt: &impl Print, registry: u64) -> io::Result<()> {
    for t in 0..256 {
        show(rt, registry, t)?;
    }
    Ok(())
}

fn main(rt: HostRuntime) -> io::Result<()> {
    for registry in 0..6 {
        show_registry(&rt, registry)?;
    }
    Ok(())
}
