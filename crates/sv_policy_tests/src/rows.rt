//! Answers of sessions to sequences of calls.

use crate::calls::answer;
use std::alloc::Global;
use sv_rows::{Asks, Strays, cell, hold};
use sv_session::Sessions;
use sv_text::NoMemory;

/// The columns: limit; interval in seconds; calls; their answers.
const ROWS: &str = r#"
-- two sessions of one moment end by number, one a call, when the interval is over (Jakarta Servlet 6.0, section 7.5)
10   | 60 | open 0; open 0; expire 59; expire 60; expire 60; expire 60      | 1; 2; -; 1; 2; -
10   | 60 | open 0; set 1 n 1; expire 59; expire 60; expire 60              | 1; new; -; 1 n=1; -
-- an access puts the end off, and an earlier deadline comes before a lesser number
10   | 60 | open 0; open 0; touch 1 30; expire 60; expire 60; expire 90      | 1; 2; yes; 2; -; 1
10   | 60 | open 0; open 0; touch 2 5; touch 1 5; expire 65; expire 65       | 1; 2; yes; yes; 1; 2
10   | 60 | open 5; open 3; expire 62; expire 63; expire 64; expire 65       | 1; 2; -; 2; -; 1
10   | 60 | open 5; open 3; open 4; expire 99; expire 99; expire 99; expire 99 | 1; 2; 3; 2; 3; 1; -
10   | 1  | open 7; expire 7; expire 8                                       | 1; -; 1
-- each call for an end tests one record where there is any, and counts it
10   | 60 | judged; expire 60; judged; open 0; open 0; touch 1 30; expire 60; expire 60; judged; expire 90; judged; expire 90; judged | 0; -; 0; 1; 2; yes; 2; -; 2; 1; 3; -; 3
10   | 0  | open 0; expire 99; judged; expire 99; judged; touch 1 5; end 1; judged | 1; -; 1; -; 2; yes; 1; 2
-- it counts one more where there is a session, up to the greatest number, and on its own count nothing where another is given
10   | 60 | count 0 7; open 0; count 0 7; count 60 18446744073709551614; count 60 18446744073709551614 | - 7; 1; - 8; 1 18446744073709551615; - 18446744073709551614
10   | 60 | open 0; open 0; count 0 18446744073709551615; count 60 18446744073709551615; judged; expire 60; judged | 1; 2; - 18446744073709551615; 1 18446744073709551615; 0; 2; 1
-- an interval of 0 is for ever, and the greatest is over at its very second
10   | 0  | open 0; expire 18446744073709551615; get 1 n; touch 1 1           | 1; -; -; yes
10   | 4294967295 | open 0; expire 4294967294; expire 4294967295             | 1; -; 1
10   | 4294967295 | open 1; expire 4294967295; expire 4294967296             | 1; -; 1
-- a moment before the last access is no time at all, and an access may be noted at one
10   | 60 | open 100; expire 50; expire 159; expire 160                      | 1; -; -; 1
10   | 60 | open 100; touch 1 10; expire 69; expire 70                       | 1; yes; -; 1
10   | 60 | open 0; touch 1 18446744073709551615; expire 18446744073709551615; expire 0 | 1; yes; -; -
-- what was opened or touched at a moment has not expired at it
10   | 1  | open 9; open 9; expire 9; touch 1 10; expire 10; expire 10; expire 11 | 1; 2; -; yes; 2; -; 1
-- as many sessions as there may be
0    | 60 | open 0                                                           | TooMany
1    | 60 | open 0; open 0; end 1; open 0                                    | 1; TooMany; 1; 2
1    | 60 | open 0; open 60; expire 60; open 60                              | 1; TooMany; 1; 2
1000 | 60 | crowd 999 0; open 0; open 0; end 500; open 0; open 0             | 999; 1000; TooMany; 500; 1001; TooMany
100000 | 0 | crowd 100000 0; open 0; end 1; open 0                           | 100000; TooMany; 1; 100001
-- a refused call takes no serial, an end gives none back, and a rename takes one
1    | 60 | open 0; open 0; open 0; end 1; open 0; id 2                      | 1; TooMany; TooMany; 1; 2; \{47*0}2
10   | 60 | rename 1; open 0; rename 2; open 0                               | NoSuch; 1; NoSuch; 2
10   | 60 | open 0; end 1; open 0; least                                     | 1; 1; 2; 2
10   | 60 | open 0; rename 1; open 0; least                                  | 1; ok; 3; 1
-- an id is 48 hexadecimal digits: those of the two words and of the serial
10   | 60 | open 0 0 1; id 1                                                 | 1; \{31*0}1\{15*0}1
10   | 60 | open 0 18446744073709551615 10; id 1                             | 1; \{16*f}\{15*0}a\{15*0}1
10   | 60 | open 0 1 2; rename 1 3 4; id 1                                   | 1; ok; \{15*0}3\{15*0}4\{15*0}2
-- the same words give other ids, since the serial is another
10   | 60 | open 0 7 7; open 0 7 7; id 1; id 2                               | 1; 2; \{15*0}7\{15*0}7\{15*0}1; \{15*0}7\{15*0}7\{15*0}2
-- a session is found by its whole id alone, by the one that it has, and for as long as it lives
10   | 60 | open 0; open 0; find \{47*0}2; find \{47*0}1                     | 1; 2; 2; 1
10   | 60 | open 0; find \{47*0}2; find \{47*0}; find \{48*0}1; find ""      | 1; -; -; -; -
10   | 60 | open 0; find \{47*0}10; find \{9999*0}1; find \{47*0}1             | 1; -; -; 1
10   | 60 | open 0 10 0; find \{15*0}a\{31*0}1; find \{15*0}A\{31*0}1         | 1; 1; -
10   | 60 | open 0; rename 1; find \{47*0}1; find \{47*0}2                   | 1; ok; -; 1
10   | 60 | open 0; end 1; find \{47*0}1; id 1                               | 1; 1; -; -
10   | 60 | open 0; expire 60; find \{47*0}1; touch 1 60                     | 1; 1; -; no
-- a rename keeps all but the id
10   | 60 | open 5; set 1 n 1; enter 1 7; save 1 /a; rename 1 1 1; caller 1; take 1; expire 64; expire 65 | 1; new; yes; yes; ok; 7; /a; -; 1 n=1
-- the least number of a session
10   | 60 | least; open 0; open 0; open 0; least; end 1; least; end 3; least; end 2; least | -; 1; 2; 3; 1; 1; 2; 3; 2; 2; -
-- all sessions end in the order of their numbers, each with its attributes, and none is left
10   | 60 | ends; open 5; open 3; open 4; end 2; ends; ends                   | -; 1; 2; 3; 2; 1, 3, -; -
10   | 60 | open 0; open 0; open 0; set 2 b 1; set 2 a 2; set 3 n 3; ends     | 1; 2; 3; new; new; new; 1, 2 b=1 a=2, 3 n=3, -
2    | 60 | open 0; open 0; ends; find \{47*0}1; touch 1 0; least; expire 60; open 0; open 0; expire 60; ends | 1; 2; 1, 2, -; -; no; -; -; 3; 4; 3; 4, -
-- an end takes one session and leaves the others
10   | 60 | end 1; open 0; open 0; end 1; end 1; end 2; end 2                | -; 1; 2; 1; -; 2; -
-- the caller enters and leaves, and the session stays
10   | 60 | caller 1; open 0; caller 1; enter 1 7; caller 1; enter 1 0; caller 1; enter 1 none; caller 1; least | -; 1; -; yes; 7; yes; 0; yes; -; 1
10   | 60 | enter 1 7; open 0; caller 1; open 0; enter 2 8; caller 1; caller 2 | no; 1; -; 2; yes; -; 8
-- a target is kept in the place of an earlier one, and is taken once
10   | 60 | take 1; save 1 /a; open 0; take 1; save 1 /a; save 1 /b; take 1; take 1 | -; no; 1; -; yes; yes; /b; -
10   | 60 | open 0; open 0; save 1 /a; take 2; take 1                        | 1; 2; yes; -; /a
"#;

/// Random sequences of calls. The answers are those of a plain list of sessions, written independently of the crate.
const DRAWN: &str = r#"
100 | 3 | open 0; end 8; find \{47*0}3; find \{47*0}2; expire 4; expire 6; rename 2; expire 7; touch 11 8; rename 3; touch 1 9; expire 10; least; touch 6 11; end 14; open 11; expire 12; end 1; end 1; touch 8 9; expire 15; expire 16; open 17; touch 5 14; open 19; open 20; end 11; touch 4 20; expire 21; open 21; expire 21; judged; find \{47*0}5; find \{47*0}2; open 25; least; rename 5; open 26; touch 6 26; expire 28; expire 28; touch 10 28; touch 4 28; expire 30; expire 32; touch 11 33; open 34; end 6; end 14; expire 35; touch 5 33; expire 38; expire 38; expire 38; touch 10 38; expire 39; expire 40; touch 9 38; expire 41; find \{46*0}13; open 43; rename 3; find \{47*0}e; touch 14 47; touch 6 46; touch 7 48; expire 49; least; touch 6 50; expire 52; ends | 1; -; -; -; 1; -; NoSuch; -; no; NoSuch; no; -; -; no; -; 2; -; -; -; no; 2; -; 3; no; 4; 5; -; yes; 3; 6; -; 5; 5; -; 7; 4; ok; 9; yes; 4; 5; no; no; 7; 6; no; 10; -; -; 9; no; 10; -; -; no; -; -; no; -; -; 11; NoSuch; -; no; no; no; 11; -; no; -; -
6 | 3 | expire 0; expire 0; find \{46*0}14; end 14; touch 12 2; open 5; end 10; find \{47*0}a; expire 7; open 8; touch 1 4; expire 8; expire 8; open 9; expire 9; rename 8; touch 13 10; open 10; touch 10 11; touch 7 9; judged; expire 13; open 14; expire 15; expire 15; expire 15; expire 16; touch 6 16; rename 12; expire 21; judged; open 24; open 26; expire 28; expire 28; expire 28; least; open 29; expire 30; expire 31; expire 32; least; touch 3 33; touch 5 33; expire 34; touch 12 35; end 13; open 36; touch 11 37; expire 37; open 39; touch 12 39; end 13; touch 10 40; touch 4 41; least; expire 42; expire 42; open 42; open 44; expire 44; touch 7 46; rename 7; touch 8 46; expire 47; least; expire 47; open 48; touch 7 45; rename 6; ends | -; -; -; -; no; 1; -; -; -; 2; yes; 1; -; 3; -; NoSuch; no; 4; no; no; 4; 2; 5; 3; 4; -; -; no; NoSuch; 5; 10; 6; 7; 6; -; -; 7; 8; 7; -; 8; -; no; no; -; no; -; 9; no; -; 10; no; -; yes; no; 9; 9; -; 11; 12; 10; no; NoSuch; no; 11; 12; 12; 13; no; NoSuch; 13, -
100 | 5 | open 0; expire 2; find \{47*0}2; least; open 7; open 8; open 8; rename 10; expire 8; end 11; touch 5 8; rename 7; expire 11; open 13; find \{47*0}a; touch 2 11; expire 17; find \{47*0}3; open 19; expire 21; open 23; open 25; touch 14 22; expire 26; expire 28; touch 8 28; open 30; expire 32; touch 7 33; find \{46*0}10; touch 1 35; expire 37; open 37; touch 4 38; find \{47*0}2; touch 11 38; touch 8 41; find \{47*0}7; touch 10 42; open 42; touch 14 38; expire 42; touch 14 41; end 7; open 43; least; touch 2 46; touch 8 47; open 48; expire 48; end 10; end 1; open 50; expire 52; open 52; expire 53; find \{47*0}e; open 54; open 55; touch 11 55; touch 1 52; touch 5 52; expire 56; expire 56; rename 3; expire 56; expire 56; expire 56; find \{47*0}3; open 59; ends | 1; -; -; 1; 2; 3; 4; NoSuch; 1; -; no; NoSuch; -; 5; -; yes; 3; -; 6; 4; 7; 8; no; 2; 5; yes; 9; 6; yes; -; no; 8; 10; no; -; no; no; 7; yes; 11; no; 9; no; 7; 12; 10; no; no; 13; 10; -; -; 14; 11; 15; 12; 14; 16; 17; no; no; no; 13; 14; NoSuch; -; -; -; -; 18; 15, 16, 17, 18, -
100 | 10 | judged; open 0; rename 8; touch 4 1; touch 6 2; rename 13; touch 8 0; open 2; expire 3; expire 3; expire 3; touch 14 2; judged; rename 3; touch 4 6; find \{47*0}4; open 9; rename 4; expire 9; expire 9; expire 10; touch 14 10; expire 10; judged; find \{46*0}11; end 6; expire 12; open 12; expire 12; expire 13; expire 13; rename 6; expire 16; expire 17; rename 3; judged; expire 20; touch 9 21; open 21; expire 22; open 22; expire 22; touch 14 22; expire 23; touch 13 21; find \{46*0}14; touch 7 25; least; open 27; open 29; expire 30; expire 30; expire 31; touch 2 31; find \{47*0}7; expire 34; expire 34; open 36; judged; touch 1 37; expire 37; expire 38; find \{46*0}11; expire 40; open 40; touch 10 36; expire 40; end 7; expire 43; expire 44; ends | 0; 1; NoSuch; no; no; NoSuch; no; 2; -; -; -; no; 3; NoSuch; no; -; 3; NoSuch; -; -; 1; no; -; 7; -; -; 2; 4; -; -; -; NoSuch; -; -; ok; 13; 3; no; 6; 4; 7; -; no; -; no; -; yes; 6; 8; 9; -; -; 6; no; 7; -; -; 10; 22; no; 7; 8; -; 9; 11; yes; -; -; -; -; 10, 11, -
12 | 3 | touch 13 0; open 2; touch 14 2; expire 3; expire 3; expire 4; rename 9; touch 13 4; touch 7 2; expire 7; end 13; end 8; judged; open 12; touch 14 11; rename 6; end 13; touch 11 12; find \{47*0}e; open 13; touch 5 12; expire 15; touch 7 14; touch 10 14; rename 1; find \{47*0}2; end 9; touch 8 12; touch 11 16; expire 16; expire 17; expire 17; open 19; expire 20; end 2; expire 21; judged; open 24; open 26; expire 26; open 26; judged; expire 28; touch 3 29; find \{47*0}e; judged; touch 3 28; expire 32; open 33; end 6; end 3; touch 1 34; end 13; open 38; end 3; judged; open 41; open 43; least; touch 10 44; rename 8; open 45; touch 7 46; rename 5; open 48; expire 50; touch 6 46; touch 14 51; touch 3 53; expire 54; ends | no; 1; no; -; -; -; NoSuch; no; no; 1; -; -; 4; 2; no; NoSuch; -; no; -; 3; no; 2; no; no; NoSuch; -; -; no; no; 3; -; -; 4; -; -; -; 8; 5; 6; 4; 7; 9; 5; no; -; 10; no; 6; 8; -; -; no; -; 9; -; 11; 10; 11; 7; yes; ok; 13; yes; NoSuch; 14; 8; no; yes; no; 9; 7, 10, 11, 13, 14, -
100 | 0 | find \{47*0}1; expire 0; expire 1; touch 4 0; expire 1; find \{47*0}8; expire 2; touch 6 2; open 2; open 2; open 2; find \{47*0}f; expire 3; expire 4; find \{47*0}3; end 9; rename 5; touch 5 6; find \{47*0}a; expire 6; open 6; touch 5 6; find \{47*0}c; find \{46*0}14; touch 10 4; touch 1 8; expire 11; expire 12; touch 7 13; expire 14; open 14; expire 14; open 15; open 17; touch 3 16; touch 14 18; open 18; expire 18; least; least; open 19; touch 1 17; least; touch 5 21; touch 3 22; expire 23; touch 10 25; expire 26; touch 1 27; expire 27; open 28; expire 28; least; rename 8; touch 7 29; touch 14 27; open 31; find \{46*0}10; expire 32; find \{47*0}a; least; rename 1; rename 1; touch 8 31; open 35; expire 35; touch 11 35; find \{46*0}14; expire 37; touch 3 37; ends | -; -; -; no; -; -; -; no; 1; 2; 3; -; -; -; 3; -; NoSuch; no; -; -; 4; no; -; -; no; yes; -; -; no; -; 5; -; 6; 7; yes; no; 8; -; 1; 1; 9; yes; 1; yes; yes; -; no; -; yes; -; 10; -; 1; ok; yes; no; 12; -; -; 10; 1; ok; ok; yes; 15; -; no; -; -; yes; 1, 2, 3, 4, 5, 6, 7, 8, 9, 10, 12, 15, -
100 | 4 | expire 0; open 0; expire 0; touch 5 0; touch 6 0; expire 3; open 4; open 4; open 5; least; rename 7; touch 13 3; least; expire 10; expire 10; touch 12 6; touch 9 6; touch 10 6; open 10; find \{47*0}3; judged; find \{47*0}2; expire 12; expire 12; open 12; expire 14; touch 9 14; touch 6 14; expire 15; open 16; open 16; touch 11 16; open 20; expire 21; open 21; find \{47*0}d; judged; expire 25; touch 4 25; open 25; find \{46*0}12; least; open 30; expire 30; expire 31; expire 31; open 31; find \{47*0}e; touch 1 33; expire 35; expire 37; expire 38; touch 12 38; touch 13 38; find \{47*0}f; judged; expire 43; open 44; find \{47*0}6; expire 44; touch 3 42; touch 4 45; least; touch 6 46; judged; find \{47*0}3; open 51; expire 52; find \{46*0}12; rename 8; ends | -; 1; -; no; no; -; 2; 3; 4; 1; NoSuch; no; 1; 1; 2; no; no; no; 5; 3; 4; -; 3; 4; 6; 5; no; yes; -; 7; 8; no; 9; 6; 10; -; 9; 7; no; 11; -; 8; 12; 8; 9; 10; 13; -; no; 11; 12; 13; no; no; -; 16; -; 14; -; -; no; no; 14; no; 17; -; 15; 14; -; NoSuch; 15, -
100 | 2 | touch 6 2; touch 2 0; touch 9 4; expire 4; expire 5; expire 5; expire 5; expire 7; open 7; touch 6 3; touch 8 6; open 8; touch 14 6; expire 8; expire 10; open 12; touch 1 13; judged; open 16; find \{47*0}8; find \{47*0}e; expire 20; touch 10 19; expire 21; touch 5 19; find \{47*0}2; expire 21; least; expire 21; find \{46*0}10; touch 1 24; expire 25; expire 26; find \{47*0}4; end 5; expire 27; open 27; expire 29; find \{47*0}4; open 32; open 32; rename 6; open 34; judged; expire 37; open 38; expire 39; open 40; open 41; expire 43; touch 14 44; open 45; expire 45; touch 8 45; touch 2 45; expire 45; expire 46; expire 46; expire 47; expire 49; rename 4; expire 49; judged; find \{47*0}8; touch 8 49; touch 2 49; expire 51; open 53; expire 55; touch 4 55; ends | no; no; no; -; -; -; -; -; 1; no; no; 2; no; -; 1; 3; no; 2; 4; -; -; 2; no; 3; no; -; 4; -; -; -; no; -; -; -; -; -; 5; 5; -; 6; 7; ok; 9; 6; 6; 10; 7; 11; 12; 9; no; 13; 10; no; no; 11; 12; -; 13; -; NoSuch; -; 14; -; no; no; -; 14; 14; no; -
100 | 1 | crowd 90 0; expire 9; expire 9; expire 9; expire 9; expire 9; expire 9; expire 9; expire 9; expire 9; expire 9; expire 9; expire 9; expire 9; expire 9; expire 9; expire 9; expire 9; expire 9; expire 9; expire 9; expire 9; expire 9; expire 9; expire 9; expire 9; expire 9; expire 9; expire 9; expire 9; expire 9; expire 9; expire 9; expire 9; expire 9; expire 9; expire 9; expire 9; expire 9; expire 9; expire 9; expire 9; expire 9; expire 9; expire 9; expire 9; expire 9; expire 9; expire 9; expire 9; expire 9; expire 9; expire 9; expire 9; expire 9; expire 9; expire 9; expire 9; expire 9; expire 9; expire 9; expire 9; expire 9; expire 9; expire 9; expire 9; expire 9; expire 9; expire 9; expire 9; expire 9; open 9; least; find \{46*0}55; touch 80 10; touch 75 0; find \{47*0}3; end 90; end 89; expire 10; expire 10; expire 10; open 10; open 10; expire 10; least; find \{46*0}5b; judged; expire 11; expire 11; expire 11; expire 11; expire 11; expire 11; expire 11; expire 11; expire 11; expire 11; expire 11; expire 11; expire 11; expire 11; expire 11; expire 11; expire 11; expire 11; expire 11; expire 11; expire 11; expire 11; least; judged; ends | 90; 1; 2; 3; 4; 5; 6; 7; 8; 9; 10; 11; 12; 13; 14; 15; 16; 17; 18; 19; 20; 21; 22; 23; 24; 25; 26; 27; 28; 29; 30; 31; 32; 33; 34; 35; 36; 37; 38; 39; 40; 41; 42; 43; 44; 45; 46; 47; 48; 49; 50; 51; 52; 53; 54; 55; 56; 57; 58; 59; 60; 61; 62; 63; 64; 65; 66; 67; 68; 69; 70; 91; 71; 85; yes; yes; -; 90; 89; 71; 72; 73; 92; 93; 74; 75; 91; 74; 75; 76; 77; 78; 79; 81; 82; 83; 84; 85; 86; 87; 88; 91; 80; 92; 93; -; -; -; -; -; -; 91; -
1000 | 10 | crowd 1000 0; touch 1000 0; touch 999 1; touch 998 2; touch 997 3; touch 996 4; touch 995 5; touch 994 6; touch 993 7; touch 992 8; touch 991 9; touch 990 10; touch 989 11; touch 988 12; touch 987 13; touch 986 14; touch 985 15; touch 984 16; touch 983 17; touch 982 18; touch 981 19; touch 980 20; touch 979 21; touch 978 22; touch 977 23; touch 976 24; touch 975 25; touch 974 26; touch 973 27; touch 972 28; touch 971 29; touch 970 30; touch 969 31; touch 968 32; touch 967 33; touch 966 34; touch 965 35; touch 964 36; touch 963 37; touch 962 38; touch 961 39; expire 10; expire 10; expire 10; expire 10; expire 10; expire 12; expire 12; least; judged; expire 49 | 1000; yes; yes; yes; yes; yes; yes; yes; yes; yes; yes; yes; yes; yes; yes; yes; yes; yes; yes; yes; yes; yes; yes; yes; yes; yes; yes; yes; yes; yes; yes; yes; yes; yes; yes; yes; yes; yes; yes; yes; yes; 1; 2; 3; 4; 5; 6; 7; 8; 7; 8
"#;

/// The columns: limit; interval in seconds; calls; their answers.
const ATTRIBUTES: &str = r#"
-- a value is set, read, set again and removed (Jakarta Servlet 6.0, section 7.4); names are compared with case
10 | 60 | open 0; get 1 n; set 1 n a; get 1 n; get 1 N; set 1 n b; get 1 n; remove 1 n; get 1 n; remove 1 n | 1; -; new; a; -; was a; b; b; -; -
10 | 60 | open 0; set 1 n a; set 1 n a; set 1 n ""; get 1 n; set 1 "" v; get 1 "" | 1; new; was a; was a; ; new; v
10 | 60 | open 0; open 0; set 1 n a; set 2 n b; get 1 n; get 2 n; remove 1 n; get 2 n | 1; 2; new; new; a; b; a; b
-- attributes stand in the order in which they were first set, and one that was removed and set anew stands last
10 | 60 | open 0; set 1 a 1; set 1 b 2; set 1 c 3; set 1 a 4; end 1             | 1; new; new; new; was 1; 1 a=4 b=2 c=3
10 | 60 | open 0; set 1 a 1; set 1 b 2; remove 1 a; set 1 a 3; end 1            | 1; new; new; 1; new; 1 b=2 a=3
10 | 60 | open 0; set 1 a 1; set 1 b 2; set 1 c 3; remove 1 b; expire 60        | 1; new; new; new; 2; 1 a=1 c=3
-- where no session lives
10 | 60 | get 1 n; set 1 n v; remove 1 n; open 0; end 1; get 1 n; set 1 n v      | -; NoSuch; -; 1; 1; -; NoSuch
-- that no session lives is told before that name or value are too long
10 | 60 | set 1 \{65*n} v; open 0; set 1 \{65*n} v                              | NoSuch; 1; TooLarge
10 | 60 | set 1 n \{4097*v}; open 0; set 1 n \{4097*v}; get 1 n                 | NoSuch; 1; TooLarge; -
-- the longest name and the longest value
10 | 60 | open 0; set 1 \{64*n} v; get 1 \{64*n}; get 1 \{63*n}; get 1 \{65*n}   | 1; new; v; -; -
10 | 60 | open 0; set 1 n \{4096*v}; set 1 n w                                  | 1; new; was \{4096*v}
10 | 60 | open 0; set 1 \{65*n} \{4097*v}; set 1 \{64*n} \{4097*v}; set 1 \{65*n} \{4096*v}; set 1 \{64*n} \{4096*v} | 1; TooLarge; TooLarge; TooLarge; new
-- a refusal leaves the value that was there
10 | 60 | open 0; set 1 n a; set 1 n \{4097*v}; get 1 n                         | 1; new; TooLarge; a
-- the 64th attribute is the last, but one of those may be set again
10 | 60 | open 0; fill 1 63; set 1 z v; set 1 y v; set 1 a0 w; get 1 a0; get 1 y | 1; new; new; TooLarge; was v; w; -
10 | 60 | open 0; fill 1 65; get 1 a63; get 1 a64; set 1 a63 \{4097*v}; remove 1 a0; set 1 y v; get 1 y | 1; TooLarge; v; -; TooLarge; v; new; v
10 | 60 | open 0; fill 1 64; fill 1 64; open 0; fill 2 64                       | 1; new; was v; 2; new
"#;

#[test]
fn sessions_open_and_end_as_the_specification_says(rt: HostRuntime) -> Result<(), Strays> {
    hold(&rt, &[ROWS], &Calls)
}

#[test]
fn attributes_keep_their_order_and_their_limits(rt: HostRuntime) -> Result<(), Strays> {
    hold(&rt, &[ATTRIBUTES], &Calls)
}

#[test]
fn many_calls_are_answered_like_those_of_a_plain_list(rt: HostRuntime) -> Result<(), Strays> {
    hold(&rt, &[DRAWN], &Calls)
}

/// Answers with the results of a row's calls on sessions with its limit and interval.
struct Calls;

impl Asks for Calls {
    const QUESTION: usize = 3;

    fn answer(&self, alloc: Global, row: &str, told: &mut Vec<u8>) -> Result<(), NoMemory> {
        let limit = cell(row, 0).parse::<usize>().unwrap_or(0);
        let interval = cell(row, 1).parse::<u32>().unwrap_or(0);
        let mut sessions = Sessions::new(alloc, limit, interval);
        for (place, call) in cell(row, 2).split(';').enumerate() {
            if place > 0 {
                told.extend_from_slice(b"; ")?;
            }
            told.extend_from_slice(answer(alloc, &mut sessions, call)?.as_bytes())?;
        }
        Ok(())
    }
}
