// The texts of the errors of a worker's session.
use super::same::expect_text;
use frames::FrameFault;
use worker_engine::ServeFault;

#[test]
fn texts_of_faults(rt: HostRuntime) {
    let texts = [
        (
            ServeFault::Read(FrameFault::BadKind),
            "frame of an unknown kind",
        ),
        (ServeFault::Read(FrameFault::Device), "read failed"),
        (ServeFault::Write, "write failed"),
        (ServeFault::Memory, "no memory"),
        (ServeFault::TooMany, "too many frames"),
    ];
    for (fault, text) in texts {
        expect_text(&rt, rt.alloc(), &fault, text);
    }
}
