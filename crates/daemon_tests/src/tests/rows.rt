//! Worked runs: the words, what stands on the input, and what has to come of them.

use super::runs::{Texts, run, text_of, texts_of};
use link_daemon::Status;
use std::alloc::{AllocError, Global};
use std::process::Abort;
use std::sync::Wait;
use std::test::Fail;
use std::thread::Threads;

/// A run. In its texts letters stand for longer ones, as `text_of` says.
#[derive(Clone, Copy)]
struct Row<'a> {
    shows: &'a str,
    words: &'a str,
    /// The number of its status, and the line at fault, 0 for none.
    ending: &'a str,
    input: &'a str,
    output: &'a str,
}

/// Runs, one behind another: what each shows, its words, its ending, its input and its output, and a bar behind each of them.
const ROWS: &str = "\
    an alive is answered|replay|0 0|=rx 1000100 0 127.0.0.1:20808 @\n\
    |%tx 1000100 0 127.0.0.1:20808 &\n\
    done 1 1 1\n\
    |\
    datagrams shorter than their heads, and one of neither kind|decode|0 0|\n\
    5f617364705f76010105000041424344454647\n\
    5f6c696e6b5f7601\n\
    000000000000000000\n\
    |fault short 0\n\
    fault short 19\n\
    fault short 8\n\
    fault notlink\n\
    |\
    a datagram of 513 bytes|decode|0 0|@~~~~~~~~~~~~~~\n\
    |fault toolong 513\n\
    |\
    an entry that is unknown changes nothing|decode|0 0|\
    5f617364705f7601010500004142434445464748746d6c6e00000018000000000007a120000000000000000000000000000000006d6570360000001200000000000000000000000000000000000073657373000000084142434445464748737473740000001100000000000000000000000000000000006d657034000000067f0000015148\n\
    @\n\
    |alive 4142434445464748 5 0 500000 0 0 4142434445464748 0 0 0 127.0.0.1:20808\n\
    alive 4142434445464748 5 0 500000 0 0 4142434445464748 0 0 0 127.0.0.1:20808\n\
    |\
    of two timelines the last one counts|decode|0 0|\
    5f617364705f7601010500004142434445464748746d6c6e00000018000000000007a12000000000000000000000000000000000746d6c6e000000180000000000061a800000000000000000000000000000000073657373000000084142434445464748737473740000001100000000000000000000000000000000006d657034000000067f0000015148\n\
    |alive 4142434445464748 5 0 400000 0 0 4142434445464748 0 0 0 127.0.0.1:20808\n\
    |\
    a timeline of 25 bytes, and one that passes the end|decode|0 0|\
    5f617364705f7601010500004142434445464748746d6c6e0000001900000000000000000000000000000000000000000000000000\n\
    5f617364705f7601010500004142434445464748746d6c6effffffff000000000000000000000000000000000000000000000000\n\
    |fault size 746d6c6e 25\n\
    fault cut 0\n\
    |\
    a state with no start and no endpoint, one with no session, and a tempo of 0|decode|0 0|\
    5f617364705f7601010500004142434445464748746d6c6e00000018000000000007a1200000000000000000000000000000000073657373000000084142434445464748\n\
    5f617364705f7601010500004142434445464748746d6c6e00000018000000000007a12000000000000000000000000000000000\n\
    5f617364705f7601010500004142434445464748746d6c6e0000001800000000000000000000000000000000000000000000000073657373000000084142434445464748\n\
    |alive 4142434445464748 5 0 500000 0 0 4142434445464748 0 0 0 -\n\
    fault missing 73657373\n\
    fault range 746d6c6e 0\n\
    |\
    a filter tells the nearest line, and refuses a late pair and a far one|filter|0 0|0 0\n\
    512 11610\n\
    1024 23000\n\
    512 30000\n\
    2147483649 0\n\
    |host 0\n\
    host 11610\n\
    host 23037\n\
    late 1024\n\
    far 0 0\n\
    done 5 2\n\
    |\
    an empty line is no pair|filter|8 2|-5 -7\n\n\
    1 1\n\
    ||\
    its own id, another group, another kind|replay|0 0|\
    =rx 1000100 0 127.0.0.1:20808 5f617364705f7601010500005152535455565758746d6c6e00000018000000000007a1200000000000000000000000000000000073657373000000084142434445464748737473740000001100000000000000000000000000000000006d657034000000067f0000015148\n\
    rx 1000100 0 127.0.0.1:20808 5f617364705f7601010500014142434445464748746d6c6e00000018000000000007a1200000000000000000000000000000000073657373000000084142434445464748737473740000001100000000000000000000000000000000006d657034000000067f0000015148\n\
    rx 1000100 0 127.0.0.1:20808 5f617364705f7601090500004142434445464748746d6c6e00000018000000000007a1200000000000000000000000000000000073657373000000084142434445464748737473740000001100000000000000000000000000000000006d657034000000067f0000015148\n\
    |%done 3 1 0\n\
    |\
    a bye of another group ends no row|replay|0 0|\
    =rx 2000000 0 127.0.0.1:20808 5f617364705f7601010500004142434445464748746d6c6e00000018000000000007a1200000000000000000000000000000000073657373000000085152535455565758737473740000001100000000000000000000000000000000006d657034000000067f0000015148\n\
    rx 2000100 0 127.0.0.1:20808 5f617364705f7601030000014142434445464748\n\
    rx 3000000 0 127.0.0.1:20808 5f617364705f7601030000004142434445464748\n\
    |%tx 2000000 0 127.0.0.1:20808 &\n\
    state 1 500000 0 1000000 0 0 0 1 1 2000000 0 0\n\
    state 2 500000 0 1000000 0 0 0 1 0 3000000 0 0\n\
    done 3 3 1\n\
    |\
    a node in the group 1 hears that group alone, and answers in it|replay|0 0|replay 2\n\
    node QRSTUVWX 1 500000 1 1000000\n\
    group 1\n\
    quantum 4000000\n\
    gate 127.0.0.1:20809\n\
    rx 1000100 0 127.0.0.1:20808 @\n\
    rx 1000100 0 127.0.0.1:20808 5f617364705f7601010500014142434445464748746d6c6e00000018000000000007a1200000000000000000000000000000000073657373000000084142434445464748737473740000001100000000000000000000000000000000006d657034000000067f0000015148\n\
    |state 0 500000 0 1000000 0 0 0 1 0 1000000 0 0 5152535455565758 4000000\n\
    tx 1000100 0 127.0.0.1:20808 5f617364705f7601020500015152535455565758746d6c6e00000018000000000007a1200000000000000000000000000000000073657373000000085152535455565758737473740000001100000000000000000000000000000000006d657034000000067f0000015149\n\
    done 2 1 1\n\
    |\
    a commit of a quantum|replay|0 0|replay 2\n\
    node QRSTUVWX 1 500000 1 0\n\
    group 0\n\
    quantum 4000000\n\
    gate 127.0.0.1:20809\n\
    app 0 0 q 3000000\n\
    |state 0 500000 0 0 0 0 0 1 0 0 0 0 5152535455565758 4000000\n\
    state 1 500000 0 0 0 0 0 1 0 0 1 0 5152535455565758 3000000\n\
    done 1 2 0\n\
    |\
    the same line in version 1|replay|8 4|replay 1\n\
    node QRSTUVWX 1 500000 1 0\n\
    gate 127.0.0.1:20809\n\
    app 0 0 q 3000000\n\
    ||\
    version 1 says none|replay|8 5|replay 1\n\
    node QRSTUVWX 1 500000 1 0\n\
    gate 127.0.0.1:20809\n\
    app 0 0\n\
    app 0 0 q 3000000\n\
    ||\
    a quantum beyond 2^40|replay|8 8|replay 2\n\
    node QRSTUVWX 1 500000 1 0\n\
    group 0\n\
    quantum 4000000\n\
    gate 127.0.0.1:20809\n\
    app 0 0 t 250000 0 0 s 1 0 1 q 0\n\
    audio 0 1 0 s 1 0 1 q 1099511627776\n\
    app 0 0 q 1099511627777\n\
    ||\
    a quantum below 0|replay|8 6|replay 2\n\
    node QRSTUVWX 1 500000 1 0\n\
    group 0\n\
    quantum 4000000\n\
    gate 127.0.0.1:20809\n\
    app 0 0 q -1\n\
    ||\
    the pong of a ping at 250 microseconds of ghost time: its session, that time, and the ping's payload|replay|0 0|\
    =rx 1000250 0 127.0.0.1:20808 5f6c696e6b5f7601015f5f68740000000800000000000003e8\n\
    |\
    %tx 1000250 0 127.0.0.1:20808 5f6c696e6b5f760102736573730000000851525354555657585f5f67740000000800000000000000fa5f5f68740000000800000000000003e8\n\
    done 1 1 1\n\
    |\
    a payload of 32 bytes is sent back|replay|0 0|\
    =rx 1000250 0 127.0.0.1:20808 5f6c696e6b5f7601010000000000000000000000000000000000000000000000000000000000000000\n\
    |\
    %tx 1000250 0 127.0.0.1:20808 5f6c696e6b5f760102736573730000000851525354555657585f5f67740000000800000000000000fa0000000000000000000000000000000000000000000000000000000000000000\n\
    done 1 1 1\n\
    |\
    a payload of 33 bytes is not|replay|0 0|\
    =rx 1000250 0 127.0.0.1:20808 5f6c696e6b5f760101000000000000000000000000000000000000000000000000000000000000000000\n\
    |%done 1 1 0\n\
    |\
    a clock that goes back: the broadcast of its later moment isn't due again|replay|0 0|=to 127.0.0.1:20808\n\
    tick 999000\n\
    tick 5\n\
    |\
    %tx 999000 0 127.0.0.1:20808 5f617364705f7601010500005152535455565758746d6c6e00000018000000000007a1200000000000000000000000000000000073657373000000085152535455565758737473740000001100000000000000000000000000000000006d657034000000067f0000015149\n\
    done 2 1 1\n\
    |\
    a tempo of 250000 from half a second on, then the first one again: the response tells the session's timeline, whose beat origin has grown twice|\
    replay|0 0|replay 1\n\
    node QRSTUVWX 1 500000 1 0\n\
    gate 127.0.0.1:20809\n\
    app 1000000 1000000 t 250000 0 500000\n\
    app 1000000 1000000 t 500000 0 0\n\
    rx 1000000 0 127.0.0.1:20808 @\n\
    |state 0 500000 0 0 0 0 0 1 0 0 0 0\n\
    state 1 250000 0 500000 0 0 0 1 0 1000000 1 0\n\
    state 2 500000 0 0 0 0 0 1 0 1000000 2 0\n\
    tx 1000000 0 127.0.0.1:20808 5f617364705f7601020500005152535455565758746d6c6e00000018000000000007a12000000000001e848100000000000f424173657373000000085152535455565758737473740000001100000000000000000000000000000000006d657034000000067f0000015149\n\
    done 3 3 1\n\
    |\
    a beat origin of 2^60 and 1|decode|0 0|\
    5f617364705f7601010500004142434445464748746d6c6e00000018000000000007a1201000000000000001000000000000000073657373000000085152535455565758737473740000001100000000000000000000000000000000006d657034000000067f0000015148\n\
    |fault range 746d6c6e 1152921504606846977\n\
    |\
    a peer of the own session on two gates counts once, until its last row ends: 3 s and 5 s to live and 1 s more|replay|\
    0 0|=gate 127.0.0.1:20810\n\
    rx 2000000 0 127.0.0.1:20808 5f617364705f7601010500004142434445464748746d6c6e00000018000000000007a1200000000000000000000000000000000073657373000000085152535455565758737473740000001100000000000000000000000000000000006d657034000000067f0000015148\n\
    rx 3000000 1 127.0.0.1:20808 5f617364705f7601010500004142434445464748746d6c6e00000018000000000007a1200000000000000000000000000000000073657373000000085152535455565758737473740000001100000000000000000000000000000000006d657034000000067f0000015148\n\
    rx 4000000 0 127.0.0.1:20808 5f617364705f7601030000004142434445464748\n\
    tick 8999999\n\
    tick 9000000\n\
    |%tx 2000000 0 127.0.0.1:20808 &\n\
    state 1 500000 0 1000000 0 0 0 1 1 2000000 0 0\n\
    tx 3000000 1 127.0.0.1:20808 5f617364705f7601020500005152535455565758746d6c6e00000018000000000007a1200000000000000000000000000000000073657373000000085152535455565758737473740000001100000000000000000000000000000000006d657034000000067f000001514a\n\
    state 2 500000 0 1000000 0 0 0 1 0 9000000 0 0\n\
    done 5 3 2\n\
    |\
    its own id, and then a peer|replay|0 0|\
    =rx 1000100 0 127.0.0.1:20808 5f617364705f7601010500005152535455565758746d6c6e00000018000000000007a1200000000000000000000000000000000073657373000000084142434445464748737473740000001100000000000000000000000000000000006d657034000000067f0000015148\n\
    rx 1000100 0 127.0.0.1:20808 @\n\
    |%tx 1000100 0 127.0.0.1:20808 &\n\
    done 2 1 1\n\
    |\
    no event|replay|0 0|=|%done 0 1 0\n\
    |\
    a tick broadcasts|replay|0 0|=to 127.0.0.1:20808\n\
    tick 1000000\n\
    |\
    %tx 1000000 0 127.0.0.1:20808 5f617364705f7601010500005152535455565758746d6c6e00000018000000000007a1200000000000000000000000000000000073657373000000085152535455565758737473740000001100000000000000000000000000000000006d657034000000067f0000015149\n\
    done 1 1 1\n\
    |\
    no script|replay|8 1|||\
    no word||2 0|||\
    a word too many|replay x|2 0|||\
    each kind of datagram|decode|0 0|@\n\
    &\n\
    5f617364705f7601030000004142434445464748\n\
    5f617364705f7601090500014142434445464748\n\
    5f6c696e6b5f760101\n\
    5F6C696E6B5F760101AbCd\n\
    5f6c696e6b5f760102736573730000000851525354555657585f5f677400000008ffffffffffffffff5f5f68740000000800000000000003e8\n\
    5f6c696e6b5f760102\n\
    5f6c696e6b5f760107\n\
    5f617364705f7601010500004142434445464748746d6c6e00000018000000000007a1201000000000000001000000000000000073657373000000085152535455565758737473740000001100000000000000000000000000000000006d657034000000067f0000015148\n\
    @00\n\
    000000000000000000\n\
    |alive 4142434445464748 5 0 500000 0 0 4142434445464748 0 0 0 127.0.0.1:20808\n\
    response 5152535455565758 5 0 500000 0 0 5152535455565758 0 0 0 127.0.0.1:20809\n\
    bye 4142434445464748 0 0\n\
    other discovery 9\n\
    ping -\n\
    ping abcd\n\
    pong 5152535455565758 -1 1000 0\n\
    fault missing 73657373\n\
    other link 7\n\
    fault range 746d6c6e 1152921504606846977\n\
    fault cut 87\n\
    fault notlink\n\
    |\
    an end says goodbye, and what comes after it is answered as before|replay|0 0|=to 127.0.0.1:20808\n\
    to 127.0.0.1:20810\n\
    end 2000000\n\
    rx 2000100 0 127.0.0.1:20808 @\n\
    |%tx 2000000 0 127.0.0.1:20808 5f617364705f7601030000005152535455565758\n\
    tx 2000000 0 127.0.0.1:20810 5f617364705f7601030000005152535455565758\n\
    tx 2000100 0 127.0.0.1:20808 &\n\
    done 2 1 3\n\
    |\
    how much there was, and the last state|load 7 1000|0 0||load 1000 109 806\n\
    state 108 372100 -21618 296253 0 0 0 1 8 10985784 61 0 4c4f41444e4f4445 4000000\n\
    |\
    a group of 17 bits|replay|8 3|replay 2\n\
    node QRSTUVWX 1 500000 1 1000000\n\
    group 65536\n\
    quantum 4000000\n\
    gate 127.0.0.1:20809\n\
    ||\
    a fifth gate|replay|8 7|=gate 127.0.0.1:1\n\
    gate 127.0.0.1:2\n\
    gate 127.0.0.1:3\n\
    gate 127.0.0.1:4\n\
    ||\
    the number of an audio commit twice|replay|8 5|=audio 5 1 5\n\
    audio 5 1 5\n\
    ||\
    a letter that is no hex digit|decode|8 3|00\n\n\
    0g\n\
    0\n\
    ||\
    an odd number of digits in the last line|decode|8 2|00\n\
    000\n\
    ||\
    a live script with no setup|live|8 2|link 1\n\
    at x tempo\n\
    ||\
    a quantum of a command beyond 2^40|live|8 8|link 1\n\
    setup 500000 1\n\
    gate 127.0.0.1:20808\n\
    at 0 quantum 0\n\
    at 0 quantum 1099511627776\n\
    block 1 quantum 0\n\
    block 1 quantum 1099511627776\n\
    at 0 quantum 1099511627777\n\
    ||\
    no event to load|load 7 0|2 0|||\
    too many events to load|load 7 524289|2 0|||\
    no room for events|live --events 0|2 0|||\
    too much room for events|live --events 524289|2 0|||\
    too many blocks|live --blocks 524289|2 0|||\
    a quantum of the words beyond 2^40|live --quantum 1099511627777|2 0|||\
    a group of the words of 17 bits|live --group 65536|2 0|||\
    24 clocks a beat, in one block|midi 100000 1|0 0|replay 1\n\
    node QRSTUVWX 1 500000 1 0\n\
    gate 127.0.0.1:20809\n\
    |midi 0 f8\n\
    midi 20834 f8\n\
    midi 41667 f8\n\
    midi 62500 f8\n\
    midi 83334 f8\n\
    done 1 5\n\
    |\
    the same in two blocks that adjoin|midi 50000 2|0 0|replay 1\n\
    node QRSTUVWX 1 500000 1 0\n\
    gate 127.0.0.1:20809\n\
    |midi 0 f8\n\
    midi 20834 f8\n\
    midi 41667 f8\n\
    midi 62500 f8\n\
    midi 83334 f8\n\
    done 2 5\n\
    |\
    a start at once|midi 100000 1|0 0|replay 1\n\
    node QRSTUVWX 1 500000 1 0\n\
    gate 127.0.0.1:20809\n\
    app 0 0 s 1 0 1\n\
    |midi 0 fa\n\
    midi 0 f8\n\
    midi 20834 f8\n\
    midi 41667 f8\n\
    midi 62500 f8\n\
    midi 83334 f8\n\
    done 1 6\n\
    |\
    a start that waits for the first sixteenth from its time on, and tells which that is|midi 200000 1|0 0|replay 1\n\
    node QRSTUVWX 1 500000 1 0\n\
    gate 127.0.0.1:20809\n\
    app 0 0 s 1 1 1\n\
    |midi 0 f8\n\
    midi 20834 f8\n\
    midi 41667 f8\n\
    midi 62500 f8\n\
    midi 83334 f8\n\
    midi 104167 f8\n\
    midi 125000 f20100\n\
    midi 125000 fb\n\
    midi 125000 f8\n\
    midi 145834 f8\n\
    midi 166667 f8\n\
    midi 187500 f8\n\
    done 1 12\n\
    |\
    a block keeps the state that it began with: a stop comes with the next one, and what comes after the last begin isn't taken|\
    midi 10 3|0 0|replay 1\n\
    node QRSTUVWX 1 500000 1 0\n\
    gate 127.0.0.1:20809\n\
    app 0 0 s 1 0 1\n\
    app 15 15 s 0 15 2\n\
    app 21 21 s 1 21 3\n\
    |midi 0 fa\n\
    midi 0 f8\n\
    midi 20 fc\n\
    done 3 3\n\
    |\
    a block of no length|midi 0 1|2 0|replay 1\n\
    node QRSTUVWX 1 500000 1 0\n\
    gate 127.0.0.1:20809\n\
    ||\
    ";

/// The longest load, worked out by the rules apart from the program.
const LONGEST: &str = "\
    the longest load|load 7 524288|0 0||load 524288 58662 418614\n\
    state 58661 301500 -21618 693578224 0 0 0 1 7 5242030666 32771 0 4c4f41444e4f4445 4000000\n\
    |\
    ";

// rule: response_to in an alive is answered
// rule: IsReadAs in datagrams shorter than their heads, and one of neither kind
// rule: IsReadAs in a datagram of 513 bytes
// rule: state_answer_of in an entry that is unknown changes nothing
// rule: last_value_of in of two timelines the last one counts
// rule: IsCutAt in a timeline of 25 bytes, and one that passes the end
// rule: Fields.answer_of in a timeline of 25 bytes, and one that passes the end
// rule: no_start in a state with no start and no endpoint, one with no session, and a tempo of 0
// rule: missing_fault_of in a state with no start and no endpoint, one with no session, and a tempo of 0
// rule: mpb_fault_of in a state with no start and no endpoint, one with no session, and a tempo of 0
// rule: limit_fault_of in a beat origin of 2^60 and 1
// rule: IsDiscoveryReadAs in each kind of datagram
// rule: IsLinkReadAs in each kind of datagram
// rule: message_words_of in each kind of datagram
// rule: IsDecodable in an odd number of digits in the last line
// rule: is_late in a filter tells the nearest line, and refuses a late pair and a far one
// rule: is_far in a filter tells the nearest line, and refuses a late pair and a far one
// rule: IsFiltered in a filter tells the nearest line, and refuses a late pair and a far one
// rule: IsPairText in an empty line is no pair
// rule: is_heard in its own id, another group, another kind
// rule: is_heard in a bye of another group ends no row
// rule: is_left in a bye of another group ends no row
// rule: is_heard in a node in the group 1 hears that group alone, and answers in it
// rule: IsPassedOver in its own id, another group, another kind
// rule: pongs_to in a payload of 32 bytes is sent back
// rule: pongs_to in a payload of 33 bytes is not
// rule: at_moment in a clock that goes back: the broadcast of its later moment isn't due again
// rule: quantum_committed in a commit of a quantum
// rule: alives_in in a tick broadcasts
// rule: byes_in in an end says goodbye, and what comes after it is answered as before
// rule: replay_text_of in no event
// rule: IsVersion in version 1 says none
// rule: IsConfig in a quantum beyond 2^40
// rule: IsFirstFault in a fifth gate
// rule: IsCutShort in no script
// rule: IsLiveScript in a live script with no setup
// rule: pulses_at in 24 clocks a beat, in one block
// rule: opening_at in a start at once
// rule: begins_at in a start that waits for the first sixteenth from its time on, and tells which that is
// rule: position_of in a start that waits for the first sixteenth from its time on, and tells which that is
// rule: midi_text_of in the same in two blocks that adjoin
// rule: NamesMidi in a block of no length
// rule: NamesLoad in too many events to load
// rule: live_app in too many blocks
// rule: Names in a word too many
// rule: EndsUnnamed in no word
#[test]
fn each_worked_run_gives_its_output(rt: HostRuntime) -> Result<(), Fail> {
    expect_all(&rt, rt.alloc(), ROWS)?;
    Ok(())
}

#[test]
fn the_longest_load_ends(rt: HostRuntime) -> Result<(), Fail> {
    expect_all(&rt, rt.alloc(), LONGEST)?;
    Ok(())
}

// Each run gives its output. There are 99 of them at most.
fn expect_all<R: Threads + Wait + Sync + Abort>(
    rt: &R,
    alloc: Global,
    rows: &str,
) -> Result<(), AllocError> {
    let mut left = rows;
    for _ in 0..99 {
        if let Some((row, rest)) = first_of(left) {
            let told = gives_its_output(rt, alloc, row)?;
            assert!(rt; told, "{}", row.shows);
            left = rest;
        }
    }
    assert_eq!(rt; left, "");
    Ok(())
}

// The first run, and what stands behind it.
fn first_of(rows: &str) -> Option<(Row<'_>, &str)> {
    let (shows, left) = rows.split_once('|')?;
    let (words, left) = left.split_once('|')?;
    let (ending, left) = left.split_once('|')?;
    let (input, left) = left.split_once('|')?;
    let (output, left) = left.split_once('|')?;
    let row = Row {
        shows,
        words,
        ending,
        input,
        output,
    };
    Some((row, left))
}

fn gives_its_output<R: Threads + Wait + Sync>(
    rt: &R,
    alloc: Global,
    row: Row<'_>,
) -> Result<bool, AllocError> {
    let mut texts = texts_of(alloc, row.input, 4096, 0, 0)?;
    is_as_told(rt, alloc, row, &mut texts)
}

fn is_as_told<R: Threads + Wait + Sync>(
    rt: &R,
    alloc: Global,
    row: Row<'_>,
    texts: &mut Texts,
) -> Result<bool, AllocError> {
    let status = run(rt, alloc, row.words, &mut texts.input, &mut texts.out)?;
    let is_ended = is_ending(alloc, status, row.ending)?;
    let wanted = text_of(alloc, row.output)?;
    Ok(is_ended && texts.out.bytes() == wanted.as_slice())
}

fn is_ending(alloc: Global, status: Status, ending: &str) -> Result<bool, AllocError> {
    let (number, line) = (status.number(), line_of(status));
    let found = format!(in alloc; "{number} {line}")?;
    Ok(found.as_str() == ending)
}

/// The line at fault that a status tells, 0 for none.
pub fn line_of(status: Status) -> u32 {
    match status {
        Status::Script { line, .. } => line,
        _ => 0,
    }
}
