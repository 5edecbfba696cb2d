//! The program: its top call over the words, the files, the input and the outputs of the runtime.
//! It must not know what the words mean, nor what is done.
#![tactic(auto)]

use aplc_cli::entry;
use aplc_io::{FsHost, StdSink, StdSource};
use std::env;
use std::process::ExitCode;

fn main(rt: HostRuntime) -> ExitCode {
    let mut host = FsHost::new(&rt);
    let mut input = StdSource::new(rt.reader());
    let mut out = StdSink::new(rt.stdout());
    let mut err = StdSink::new(rt.stderr());
    let code = entry(
        rt.alloc(),
        env::args(&rt),
        &mut host,
        &mut input,
        &mut out,
        &mut err,
    );
    ExitCode::from(code)
}
