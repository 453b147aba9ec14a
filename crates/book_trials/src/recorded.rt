// An answer as a sample records it: a code and three numbers. The entry for C makes the same codes,
// but it is a static library, which no other crate can name.
use answers::answer::Answer;
use endian::LittleEndian;

// The bytes of an answer.
pub(crate) const ANSWER: usize = 25;

fn place(i: Option<u8>) -> u64 {
    i.unwrap_or(255) as u64
}

// Whether the answer is the one in b. A number that it does not have is zero.
pub(crate) fn is_answer(b: &[u8; ANSWER], a: Answer) -> bool {
    let answer = match a {
        Answer::Opened => (255, 0, 0, 0),
        Answer::Used(u) => (254, place(u.slot), place(u.next_print), u.fallback as u64),
        Answer::Wait { until } => (253, until.cast_unsigned(), 0, 0),
        Answer::Settle {
            method,
            price,
            samples,
        } => (252, method.number() as u64, price.get(), samples as u64),
        Answer::Void => (251, 0, 0, 0),
        Answer::Done => (250, 0, 0, 0),
        Answer::Refused(r) => (r.number(), 0, 0, 0),
    };
    (
        u8::read(b, 0),
        u64::read(b, 1),
        u64::read(b, 9),
        u64::read(b, 17),
    ) == answer
}
