// Scripts whose requests for memory are refused in turn, with the outcomes that are allowed, word for word.
use crate::plays::{BOUND, Heap, Play, check};
use mini_moka::script::{End, FromRead, FromWrite, ScriptError, run};
use std::alloc::Global;
use std::test::Fail;
use tests_heap::for_each_refusal;

/// A script, and each text of replies that it may get.
struct Case {
    script: &'static str,
    replies: &'static [&'static str],
}

/// An insert is refused by name or done.
const UNSYNC: Case = Case {
    script: "unsync max 3\n0 insert 0 alice\n0 get 0\n",
    replies: &["ready\nok\nsome alice\n", "ready\nrefused memory\nnone\n"],
};

/// The insert is refused, or its node, or one of the two copies, or nothing.
const CORE: Case = Case {
    script: "core\n0 insert 1 0 a\n0 get 2 0\n0 push 1\n0 sync\n0 count\n0 get 3 0\n",
    replies: &[
        "ready\nok\nsome a\nok\nok\n1\nsome a\n",
        "ready\nrefused memory\nnone\nnot possible\nok\n0\nnone\n",
        "ready\nok\nsome a\nok\nok\n0\nnone\n",
        "ready\nok\nrefused memory\nok\nok\n1\nsome a\n",
        "ready\nok\nsome a\nok\nok\n1\nrefused memory\n",
    ],
};

/// Plays a script: it is broken off with nothing written, or gets one of its texts, with all memory the first one.
fn play(alloc: Global, heap: &Heap, case: &Case) -> Play {
    let mut source = FromRead::new(case.script.as_bytes());
    let mut sink = FromWrite::new(Vec::new(alloc));
    let ended = run(heap, &mut source, &mut sink);
    let written = sink.into_inner();
    match ended {
        Err(ScriptError::OutOfMemory) => check(
            written.is_empty() && heap.refused() > 0,
            "a run that is broken off",
        ),
        Ok(End::Done) => {
            let is_allowed = |text: &&str| text.as_bytes() == written.as_slice();
            let found = case.replies.iter().position(is_allowed);
            let is_right = found == Some(0) || found.is_some() && heap.refused() > 0;
            check(is_right, "the replies")
        }
        _ => Err("how a run ends"),
    }
}

#[test]
fn a_refused_request_gives_an_allowed_text(rt: HostRuntime) -> Result<(), Fail> {
    for case in &[UNSYNC, CORE] {
        let plays = for_each_refusal(rt.alloc(), rt.alloc(), BOUND, |heap| {
            play(rt.alloc(), heap, case)
        })?;
        assert!(rt; plays > 0);
    }
    Ok(())
}
