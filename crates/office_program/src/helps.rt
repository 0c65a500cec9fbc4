// The end of each command's help: an example, the exit statuses, and the meaning of the numbers of
// faults.

// The end of the help of `check`. The numbers are those of `FaultKind`, in the order of its
// variants.
pub(crate) const CHECK: &str = "\
Example:
  examoffice check term.exam term.sol

One of the files can be -, which is standard input. With --why the report is
followed by a line for each summand of the penalty:
  row 0 1 5 35    exams 0 and 1 in a row for 5 students: 35 points; likewise
                  day, spread and night, by the greater exam
  mixed 2 7 3 20  room 2 in period 7: 3 different durations
  front 4 60 10   exam 4 with 60 students, large and late
  period 7 3 15   period 7 with 3 exams; likewise room
With --student N only that student's pairs follow, each for one student, and
their sum: student 7 42. With --json an object has the report, its breaches in
a list.

Exit status:
  0  judged: no hard rule is broken
  1  not judged: a line on standard error says why
  2  the command line is wrong
  3  judged: hard rules are broken, each on a line of standard output

The line 'examoffice: instance line 8: fault 5' names the first fault of a file:
   1  too long: the file has more bytes than are read (line 0)
   2  no header: the header of the next section is expected here
   3  wrong count: more or fewer lines than the header or the instance says
   4  no number: a field is not a whole number
   5  no such date: a field is not a date, DD:MM:YYYY, that the calendar has
   6  no such time: a field is not a time of day, HH:MM:SS
   7  no such word: a field is none of the words that are allowed there
   8  out of range: a number is beyond its limit, or names nothing that exists
   9  repeated: a word of the weightings comes a second time
  10  stray text: there is text after the last field, or after a header's ]
  11  wrong columns: the first line of a batch is not student,exam,action
  12  not placed: an exam of a timetable to be written has no place
  13  no memory: memory was refused (line 0); the file may be right";

// The end of the help of `check-all`.
pub(crate) const CHECK_ALL: &str = "\
Example:
  examoffice check-all term.exam one.sol two.sol

A line for each solution: its breaches, its penalty, the eight parts in the
order in which check prints them, and its path. With --json the same numbers
have names, and the breaches are in a list. A solution with a fault has a line
on standard error instead. One of the files can be -, which is standard input.

Exit status:
  0  all judged: no solution breaks a hard rule
  1  a file has a fault: a line on standard error says which
  2  the command line is wrong
  3  all judged: a solution breaks hard rules";

// The end of the help of `places`.
pub(crate) const PLACES: &str = "\
Example:
  examoffice places term.exam term.sol 12

A line for each place, by period and then by room. 3,0,27,,, says that the
solution's penalty is 27 with the exam in period 3 and room 0. In the line
3,1,,Clash,0,1 the rule and the two exams say why the exam can't be there.
What the solution breaks without the exam doesn't matter. One of the files can
be -, which is standard input.

Exit status:
  0  listed
  1  not listed: a line on standard error says why
  2  the command line is wrong

The line 'examoffice: instance line 8: fault 5' names the first fault of a
file; examoffice check --help has the numbers.";

// The end of the help of `compare`.
pub(crate) const COMPARE: &str = "\
Example:
  examoffice compare term.exam old.sol new.sol

What differs between two solutions of one session:
  moved 2                one line for each exam whose place differs: 3 2 0 0 1
                         says that exam 3 was in period 2 and room 0, and is in
                         period 0 and room 1
  candidates 40          how many students sit a moved exam
  two in a row 7 0       each part of the penalty before and after; the last is
                         the total
  gained breaches 1      the breaches that only the second solution has
  lost breaches 0        the breaches that only the first solution has
One of the files can be -, which is standard input.

Exit status:
  0  compared, also if hard rules are broken
  1  not compared: a line on standard error says why
  2  the command line is wrong

The line 'new.sol: examoffice: solution line 8: fault 4' names the first fault
of a file; examoffice check --help has the numbers.";

// The end of the help of `load`.
pub(crate) const LOAD: &str = "\
Example:
  examoffice load --db term.db term.exam

Exit status:
  0  loaded: the line on standard output says how much
  1  not loaded, or its line could not be printed: standard error says why
  2  the command line is wrong

The line 'examoffice: instance line 8: fault 5' names the first fault of the
file; examoffice check --help has the numbers. Of 'examoffice: store fault F':
  1  loaded: the office has a session already
  8  failed: a statement failed, or memory was refused
  9  no office: the tables in the database are not those of an office";

// The end of the help of `serve`.
pub(crate) const SERVE: &str = "\
Example:
  examoffice serve --db term.db --port 8080 --connections 1000000

Exit status:
  0  all connections were served
  1  not served, or not to the end: a line on standard error says why
  2  the command line is wrong

The line 'listening 127.0.0.1:8080' on standard output says that the office
serves. 'examoffice: connection fault F' on standard error ends a connection:
  1  not read: reading failed, or was not in time
  2  not written: writing failed, or was not in time
  3  no reads left: it was read more often than a connection may be
  4  no memory: memory was refused
'examoffice: store fault F' ends the program:
  8  failed: a statement failed, or memory was refused
  9  no office: the tables in the database are not those of an office";

// The end of the help of `export`.
pub(crate) const EXPORT: &str = "\
Example:
  examoffice export --db term.db > term.sol

Exit status:
  0  the published solution is written
  1  not written, or not whole: a line on standard error says why
  2  the command line is wrong

Of 'examoffice: store fault F':
  8  failed: a statement failed, or memory was refused
  9  no office: the tables in the database are not those of an office";

// The end of the help of `explain`.
pub(crate) const EXPLAIN: &str = "\
Example:
  examoffice explain file 5        for 'instance line 8: fault 5'
  examoffice explain store 9       for 'store fault 9'
  examoffice explain connection 1  for 'connection fault 1'

Exit status:
  0  explained
  1  not written: a line on standard error says why
  2  the command line is wrong, or there is no such fault";

// The end of the help of the program.
pub(crate) const PROGRAM: &str = "\
Example:
  examoffice check term.exam term.sol

examoffice COMMAND --help has an example of each command, its exit statuses
and its faults.";
