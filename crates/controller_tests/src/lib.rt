// Rehearsals of a sender and a taker, from the bytes of the files to the answers.
#![tactic(auto)]

#[cfg(test)]
mod tests {
    use controller::call::{Answer, Call, Sight};
    use controller::run::rehearse;
    use list_abstraction::ListAbstraction;
    use model::fault::Fault;
    use std::test::Fail;

    // Rule 0: machine 0 sends event 0 to machine 1. Rule 1: machine 1 takes it.
    static TABLE: &[u8; 32] =
        b"\x01\x00\x02\x00\x01\x00\x02\x00\x00\x00\x10\x00\x14\x00\x20\x00\x01\x00\x01\x00\x02\x00\x00\x00\x00\x01\x01\x01\x00\x00\x00\x00";

    // The records (0, 0; 0, 0) and (0, 0; 0, 1) of local states and codes.
    static SET: &[u8; 52] =
        b"\x01\x00\x00\x00\x00\x00\x02\x00\x01\x00\x02\x00\x10\x00\x00\x00\x00\x00\x00\x00\x00\x00\x00\x00\x00\x00\x00\x00\x00\x00\x00\x00\x00\x00\x00\x00\x00\x00\x00\x00\x00\x00\x00\x00\x01\x00\x00\x00\x00\x00\x00\x00";

    // How many answers, or the number of the refusal and its A.
    fn rehearsed(
        capacity: u8,
        calls: &[Call],
        answers: &mut [Result<Answer, Fault>],
    ) -> Result<usize, (u8, u32)> {
        rehearse(TABLE, SET, &ListAbstraction, capacity, calls, answers).map_err(|fault| (
            u8::from(fault.number),
            fault.a,
        ))
    }

    fn look(machine: u8, place: u8) -> Call {
        Call::Look { machine, place }
    }

    // An answer, or the number of the refusal.
    fn numbered(answer: Result<Answer, Fault>) -> Result<Answer, u8> {
        answer.map_err(|fault| u8::from(fault.number))
    }

    #[test]
    fn fires_at_capacity_1(rt: HostRuntime) {
        let calls = [
            Call::Fire { rule: 0 },
            Call::Fire { rule: 0 },
            Call::Fire { rule: 1 },
            Call::Fire { rule: 1 },
            Call::Fire { rule: 2 },
        ];
        let mut answers = [Ok(Answer::Reset); 5];
        assert_eq!(rt; rehearsed(1, &calls, &mut answers), Ok(5));
        assert_eq!(rt;
            answers.map(numbered),
            [
                Ok(Answer::Accepted),
                Err(17),
                Ok(Answer::Accepted),
                Err(15),
                Err(13)
            ]
        );
    }

    #[test]
    fn looks_and_resets(rt: HostRuntime) {
        let calls = [
            Call::Fire { rule: 0 },
            Call::Fire { rule: 0 },
            look(1, 1),
            look(2, 0),
            Call::Reset,
            look(1, 0),
        ];
        let mut answers = [Ok(Answer::Accepted); 7];
        assert_eq!(rt; rehearsed(2, &calls, &mut answers), Ok(6));
        let full = Sight {
            local: 0,
            waiting: 2,
            event: Some(0),
        };
        let empty = Sight {
            local: 0,
            waiting: 0,
            event: None,
        };
        let accepted = Ok(Answer::Accepted);
        assert_eq!(rt;
            answers.map(numbered),
            [
                accepted,
                accepted,
                Ok(Answer::Seen(full)),
                Err(18),
                Ok(Answer::Reset),
                Ok(Answer::Seen(empty)),
                accepted
            ]
        );
    }

    #[test]
    fn fewer_places_than_calls(rt: HostRuntime) {
        let calls = [Call::Fire { rule: 0 }, Call::Reset];
        let mut answers = [Ok(Answer::Reset); 1];
        assert_eq!(rt; rehearsed(32, &calls, &mut answers), Ok(1));
        assert_eq!(rt; numbered(answers[0]), Ok(Answer::Accepted));
    }

    #[test]
    fn capacity_out_of_range(rt: HostRuntime) {
        let mut answers = [Ok(Answer::Reset); 1];
        assert_eq!(rt; rehearsed(0, &[Call::Reset], &mut answers), Err((12, 0)));
        assert_eq!(rt; rehearsed(33, &[Call::Reset], &mut answers), Err((12, 33)));
        assert_eq!(rt; numbered(answers[0]), Ok(Answer::Reset));
    }

    #[test]
    fn lines(rt: HostRuntime) -> Result<(), Fail> {
        let calls = [
            Call::Fire { rule: 0 },
            look(1, 0),
            look(1, 1),
            Call::Fire { rule: 7 },
        ];
        let mut answers = [Ok(Answer::Reset); 5];
        assert_eq!(rt; rehearsed(32, &calls, &mut answers), Ok(4));
        let [Ok(fired), Ok(front), Ok(behind), Err(refused), Ok(unused)] = answers else {
            return Err(Fail::new("not as asked"));
        };
        let text = format!(in rt.alloc(); "{fired}|{front}|{behind}|{refused}|{unused}")?;
        assert_eq!(rt;
            text.as_str(),
            "accepted|local 0 waiting 1 event 0|local 0 waiting 1 event none|refused 13 7 0 0|reset"
        );
        Ok(())
    }
}
