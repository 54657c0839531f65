use board_core::{Answer, CoreState, Event};
use std::test::Fail;

/// Two workers claim both segments, and one of them is posted and seen. Then one worker passes, and
/// claims no more.
#[test]
fn answers_in_order(rt: HostRuntime) -> Result<(), Fail> {
    let mut machine = CoreState::open(rt.alloc(), 2);
    let steps = [
        (Event::Claim { worker: 0 }, Answer::Drew(0)),
        (Event::Claim { worker: 1 }, Answer::Drew(1)),
        (
            Event::Post {
                worker: 1,
                segment: 1,
            },
            Answer::Nothing,
        ),
        (Event::Look { worker: 0 }, Answer::Least(1)),
        (Event::Claim { worker: 0 }, Answer::Drew(2)),
        (Event::Claim { worker: 0 }, Answer::Nothing),
        (Event::Claim { worker: 1 }, Answer::Drew(3)),
        (
            Event::Post {
                worker: 1,
                segment: 0,
            },
            Answer::Nothing,
        ),
        (Event::Look { worker: 1 }, Answer::Least(1)),
    ];
    for (event, answer) in steps {
        assert_eq!(rt; machine.apply(event)?, answer);
    }
    Ok(())
}
