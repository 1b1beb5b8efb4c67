//! One page for each code that the workbench prints, and for each word of a script.
ghost use Rattle.std.specs.Prelude.{◌≡◌};
ghost use Rattle.chip_pages.specs.Pages.{codes_of, command_codes, end_codes, line_codes, words};

/// An example that shows a code or a word.
#[derive(Clone, Copy)]
pub enum Example {
    /// A source whose last line has the fault or the warning.
    Source(&'static str),
    /// A source and a script. The last line of the script is refused.
    Script {
        source: &'static str,
        script: &'static str,
    },
    /// A source whose program stops within 100 steps.
    Stop(&'static str),
    /// A description of an example that is too large to write out, or that depends on the system.
    Told(&'static str),
    /// A source, a script for the source, and the answers to the script.
    Answer {
        source: &'static str,
        script: &'static str,
        answer: &'static str,
    },
}

/// The page on a code, or on a word of a script.
#[derive(Clone, Copy)]
pub struct Page {
    pub code: &'static str,
    pub title: &'static str,
    pub meaning: &'static str,
    pub example: Example,
    pub fix: &'static str,
}

// Only one function names each table, because the proof of a function reads the whole of each static
// that the function names.

/// The pages on the faults and the warnings of a source's lines, and on the faults of its properties.
pub(crate) fn line_pages() -> &'static [Page]
    ensures { codes_of result.now ≡ line_codes }
{
    &LINE_PAGES
}

/// The pages on the refusals of edits and questions, and on the faults of commands.
pub(crate) fn command_pages() -> &'static [Page]
    ensures { codes_of result.now ≡ command_codes }
{
    &COMMAND_PAGES
}

/// The pages on the reasons why a session ends or doesn't open, and why a program stops.
pub(crate) fn end_pages() -> &'static [Page]
    ensures { codes_of result.now ≡ end_codes }
{
    &END_PAGES
}

/// The pages on the words that begin the commands of a script. The title of each page shows the form
/// of the command.
pub fn word_pages() -> &'static [Page]
    ensures { codes_of result.now ≡ words }
{
    &WORD_PAGES
}

// The faults and the warnings of a source's lines, and the faults of its properties.
static LINE_PAGES: [Page; 32] = [
    Page {
        code: "F1",
        title: "bad character",
        meaning: "A byte that begins no token, or digits that are no number, such as `0x10` or `12A`.",
        example: Example::Source("DB ?"),
        fix: "Remove the byte. Write a hexadecimal number as `#10`, an octal one as `@17`, a binary one as `$1..1`, and begin a comment with `;`.",
    },
    Page {
        code: "F2",
        title: "unfinished string",
        meaning: "A quote without a second quote on its line.",
        example: Example::Source("DB 'ab"),
        fix: "Put the same quote at the end of the text. There are no escapes: put a text that contains `'` between `\"`.",
    },
    Page {
        code: "F3",
        title: "unknown word",
        meaning: "A statement begins with a word that is neither an instruction nor a directive, such as a label without its colon.",
        example: Example::Source("FOO V0"),
        fix: "Correct the spelling (docs/LANGUAGE.md lists the words), or put `:` after a label.",
    },
    Page {
        code: "F4",
        title: "operands don't fit",
        meaning: "The operands fit no form of the instruction or directive. There may be one too many or too few, a missing comma, or a register instead of a value.",
        example: Example::Source("LD V0"),
        fix: "Compare the line with the table of instructions in docs/MACHINE.md. Use `DA 'text'` for a text of several bytes.",
    },
    Page {
        code: "F5",
        title: "number above 2147483647",
        meaning: "A number has more than 31 bits.",
        example: Example::Source("DB 99999999999"),
        fix: "Use a smaller number: a byte has 8 bits, a word 16.",
    },
    Page {
        code: "F6",
        title: "parentheses deeper than 16",
        meaning: "More than 16 parentheses are open at one place of a line.",
        example: Example::Source("DB (((((((((((((((((1)))))))))))))))))"),
        fix: "Define a part of the expression with EQU, and use its name.",
    },
    Page {
        code: "F7",
        title: "name reserved or over 64 bytes",
        meaning: "A line defines a reserved word, such as a register, or a name of over 64 bytes.",
        example: Example::Source("LD: CLS"),
        fix: "Use another name.",
    },
    Page {
        code: "F8",
        title: "name defined on an earlier line",
        meaning: "Two lines define the same name. Upper and lower case don't differ.",
        example: Example::Source("X EQU 1\nx EQU 2"),
        fix: "Give one of them another name.",
    },
    Page {
        code: "F9",
        title: "undefined name",
        meaning: "A name has no value. EQU, ORG and DS can only use names that earlier lines define.",
        example: Example::Source("DB NONE"),
        fix: "Define the name with a label or EQU, or correct its spelling. For EQU, ORG and DS, define it further up.",
    },
    Page {
        code: "F10",
        title: "value out of range",
        meaning: "A value doesn't fit its field: a byte is -128 to 255, a word -32768 to 65535, an address 0 to 4095, a height 0 to 15.",
        example: Example::Source("DB 256"),
        fix: "Use a smaller value, or DW instead of DB.",
    },
    Page {
        code: "F11",
        title: "division by zero",
        meaning: "The right side of `/` is 0.",
        example: Example::Source("DB 1/0"),
        fix: "Correct the expression.",
    },
    Page {
        code: "F12",
        title: "overflow, or a shift outside 0 to 31",
        meaning: "A result doesn't fit 32 bits with a sign, or `<` or `>` shifts by less than 0 or more than 31. `<` is a shift, not a comparison.",
        example: Example::Source("DW 1 < 31"),
        fix: "Correct the expression.",
    },
    Page {
        code: "F13",
        title: "ORG below the line's address",
        meaning: "ORG goes back to an earlier address. The first address is 512.",
        example: Example::Source("ORG 100"),
        fix: "Use an address at or after the address of the line, which the listing shows.",
    },
    Page {
        code: "F14",
        title: "past address 4096",
        meaning: "The line would end above address 4096, because an image has at most 3584 bytes.",
        example: Example::Source("DS 3585"),
        fix: "Make the program smaller.",
    },
    Page {
        code: "F15",
        title: "stray ELSE or ENDIF",
        meaning: "An ELSE or ENDIF without an IFDEF or IFUND before it, or a second ELSE.",
        example: Example::Source("ENDIF"),
        fix: "Delete the line, or put its IFDEF or IFUND before it.",
    },
    Page {
        code: "F16",
        title: "IF without ENDIF",
        meaning: "An IFDEF or IFUND is still open at the end of the source.",
        example: Example::Source("IFDEF X"),
        fix: "Put an ENDIF after its lines.",
    },
    Page {
        code: "F17",
        title: "not in this profile",
        meaning: "A directive of the Chipper assembler that this assembler lacks: INCLUDE, UNDEF, or OPTION with another word.",
        example: Example::Source("INCLUDE 'x'"),
        fix: "Replace each INCLUDE with the lines of its file.",
    },
    Page {
        code: "W1",
        title: "rows apart by a zero byte",
        meaning: "Two lines of DB without a label between them have an odd number of bytes each. Under ALIGN ON, which is the default, a zero byte follows each of them, so a sprite of these rows has a dark row between them.",
        example: Example::Source(
            "LD I, BALL\nDRW V0, V1, 2\nSTOP: JP STOP\nBALL: DB $.1111...\nDB $.1111...",
        ),
        fix: "Write the rows in one DB, or put ALIGN OFF before them and ALIGN ON after them.",
    },
    Page {
        code: "W2",
        title: "name never used",
        meaning: "A label, EQU or DEFINE defines a name, and no expression, IFDEF, IFUND or property uses it. A label at the beginning of the program, and a name that begins with `_`, may be there for the reader and have no warning.",
        example: Example::Source("STOP: JP STOP\nWIDTH EQU 64"),
        fix: "Delete the name, correct the spelling where you meant to use it, or begin it with `_`.",
    },
    Page {
        code: "W3",
        title: "instruction never reached",
        meaning: "An instruction follows directly after JP, RET or EXIT, has no label, and is never executed, for any keys, random bytes and speed. There is no warning if that can't be proved.",
        example: Example::Source("STOP: JP STOP\nCLS"),
        fix: "Delete the instruction, or put a label before it and jump there.",
    },
    Page {
        code: "W4",
        title: "execution runs into data",
        meaning: "A line of DB, DA, DW or DS follows directly after an instruction that goes on there, so the machine would execute its bytes. A DW with the word of an instruction has no warning.",
        example: Example::Source("LD I, BALL\nDRW V0, V1, 1\nBALL: DB $.1111..."),
        fix: "Put a JP, RET or EXIT before the data.",
    },
    Page {
        code: "W5",
        title: "jump to data",
        meaning: "A JP or CALL leads to a line of DB, DA, DW or DS. There is no warning for a DW with the word of an instruction, or if the program may write there.",
        example: Example::Source("JP START\nBALL: DB $.1111...\nSTART: LD I, BALL\nCALL BALL"),
        fix: "Use the label of an instruction.",
    },
    Page {
        code: "W6",
        title: "instruction at an odd address",
        meaning: "Instructions belong at even addresses. This one has an odd address, after an odd number of data bytes under ALIGN OFF, or after an ORG. Only the first of several in a row has the warning.",
        example: Example::Source("JP START\nALIGN OFF\nBALL: DB $.1111...\nSTART: LD I, BALL"),
        fix: "Write ALIGN ON before the data, or add a byte after it.",
    },
    Page {
        code: "W7",
        title: "instruction that the profile lacks",
        meaning: "The profile, vip or chip48, lacks the instructions that only SUPER-CHIP has: SCD, SCR, SCL, EXIT, LOW, HIGH, LD HF, Vx, LD R, Vx and LD Vx, R. The machine stops here with S2.",
        example: Example::Source("HIGH"),
        fix: "Avoid the instruction, or use the profile schip.",
    },
    Page {
        code: "W8",
        title: "instruction that no key script executes",
        meaning: "With `check --cover` alone: whatever keys are down at each step, no step is made at the address of this instruction; where a step is named, none up to that one. The tape is that of --tape or --seed, or else 00, so that RND gives 0. 10 steps lie between two ticks. An instruction that has W3 has no W8.",
        example: Example::Source("LD V0, 1\nLOOP: SE V0, 0\nJP LOOP\nCLS"),
        fix: "Correct what was to lead there, or delete the instruction. `explore --cover` tries another tape or rate.",
    },
    Page {
        code: "W9",
        title: "RND without a tape or a seed",
        meaning: "`check` is given neither --tape nor --seed. The random bytes are then all 0, so RND always gives 0. Only the first RND of a source has this warning, and none whose mask is 0, which gives 0 under each tape.",
        example: Example::Source("RND V0, 63"),
        fix: "Give `check` and the other commands a seed, as in `--seed 1`, or a tape, as in `--tape 2a91`. `--allow W9` hides the warning.",
    },
    Page {
        code: "P1",
        title: "property that states nothing",
        meaning: "A line with `;!` has no condition and no place.",
        example: Example::Source("STOP: JP STOP\n;! always"),
        fix: "Write a condition, as in `;! always V0 <= 7`, or a place, as in `;! never at BUG`.",
    },
    Page {
        code: "P2",
        title: "comparison expected",
        meaning: "A property goes on in a way that it can't: a comparison, a value or a place is missing, a second relation follows a comparison, `and` stands beside `or`, or a token is bad. Write `=` for equal, and `<>` or `!=` for unequal.",
        example: Example::Source("STOP: JP STOP\n;! 0 < V0 < 5"),
        fix: "Write two comparisons, as in `;! 0 < V0 and V0 < 5`. Put a calculation with names and numbers in parentheses.",
    },
    Page {
        code: "P3",
        title: "undefined name in a property",
        meaning: "A name in a property has no value.",
        example: Example::Source("STOP: JP STOP\n;! never V0 = 1 at STOPP"),
        fix: "Correct its spelling, or define it with a label or EQU.",
    },
    Page {
        code: "P4",
        title: "value out of range in a property",
        meaning: "A number is above 2147483647, a value is below 0, the numbers of a sum have over 32 bits together, an address is above 4095, or a pixel is off the screen: columns go to 127, rows to 63.",
        example: Example::Source("STOP: JP STOP\n;! never [4096] = 1"),
        fix: "Use a value in the range. Instead of subtracting on one side of a relation, add on the other.",
    },
    Page {
        code: "P5",
        title: "what can't be asked",
        meaning: "A property names ST, K or DRAWS, which the states of a search don't record, or it has `here` without a line, as in `explore --never`.",
        example: Example::Source("STOP: JP STOP\n;! always ST = 0"),
        fix: "Use a register, a byte of memory, or DT. KEYS is 1 where the next instruction asks for a key.",
    },
    Page {
        code: "P6",
        title: "too many parts of properties",
        meaning: "A condition has over 16 comparisons, a sum over 16 terms, a source over 64 properties, or over 16 parentheses and brackets are open at one place.",
        example: Example::Source("STOP: JP STOP\n;! (((((((((((((((((1))))))))))))))))) = V0"),
        fix: "Split it into several properties, or define a part of the expression with EQU.",
    },
];

// The refusals of edits and questions, and the faults of commands.
static COMMAND_PAGES: [Page; 16] = [
    Page {
        code: "N1",
        title: "no such line",
        meaning: "The number is 0, or above the number of lines (for `ins`, above that number plus 1).",
        example: Example::Script {
            source: "CLS",
            script: "del 2",
        },
        fix: "`list` shows the lines with their numbers.",
    },
    Page {
        code: "N2",
        title: "text too long",
        meaning: "The text has over 200 bytes.",
        example: Example::Told("`rep 1 ;` and 200 bytes more."),
        fix: "Split the line in two, or shorten its comment.",
    },
    Page {
        code: "N3",
        title: "too many lines",
        meaning: "A source has at most 4,000 lines.",
        example: Example::Told("`ins 1` in a source of 4,000 lines."),
        fix: "Delete lines first.",
    },
    Page {
        code: "N4",
        title: "line break in the text",
        meaning: "The text contains a CR or an LF.",
        example: Example::Told("`ins 1 A`, a CR, and `B`."),
        fix: "Insert each part as a separate line.",
    },
    Page {
        code: "N5",
        title: "step above the last",
        meaning: "A key event's step is above 1,000,000.",
        example: Example::Script {
            source: "CLS",
            script: "kins 1000001 5 down",
        },
        fix: "Use a step from 0 to 1,000,000.",
    },
    Page {
        code: "N6",
        title: "no such key",
        meaning: "The keys have the numbers 0 to 15, `#0` to `#F`.",
        example: Example::Script {
            source: "CLS",
            script: "kins 0 16 down",
        },
        fix: "Use a key from 0 to 15.",
    },
    Page {
        code: "N7",
        title: "event there already",
        meaning: "There is already an event for that step and key.",
        example: Example::Script {
            source: "CLS",
            script: "kins 2 5 down\nkins 2 5 up",
        },
        fix: "`krep` changes it, and `kdel` deletes it.",
    },
    Page {
        code: "N8",
        title: "no such event",
        meaning: "There is no event for that step and key.",
        example: Example::Script {
            source: "CLS",
            script: "kdel 2 5",
        },
        fix: "`kins` adds one.",
    },
    Page {
        code: "N9",
        title: "too many events",
        meaning: "A session has at most 10,000 key events.",
        example: Example::Told("`kins` in a session of 10,000 events."),
        fix: "Delete events by `kdel` first.",
    },
    Page {
        code: "N10",
        title: "out of memory for an edit",
        meaning: "Memory ran out in an edit, and the session is unchanged. Only the library returns this code; a script's session ends.",
        example: Example::Told("none can be shown: it depends on the system."),
        fix: "Free memory, and repeat the edit.",
    },
    Page {
        code: "Q1",
        title: "no image",
        meaning: "A line has a fault, so there is no image to show or run.",
        example: Example::Script {
            source: "DB NONE",
            script: "regs 0",
        },
        fix: "`faults` shows the lines with their faults.",
    },
    Page {
        code: "Q2",
        title: "step above the last",
        meaning: "A question's step is above 1,000,000.",
        example: Example::Script {
            source: "CLS",
            script: "screen 1000001",
        },
        fix: "Use a step from 0 to 1,000,000.",
    },
    Page {
        code: "Q3",
        title: "past address 4096",
        meaning: "The question asks for bytes past the end of memory.",
        example: Example::Script {
            source: "CLS",
            script: "mem 0 4095 2",
        },
        fix: "Ask for fewer bytes, or begin at a lower address. A word of `dis` has two bytes.",
    },
    Page {
        code: "Q4",
        title: "out of memory for an answer",
        meaning: "Memory ran out in an answer. Only the library returns this code; a script's session ends.",
        example: Example::Told("none can be shown: it depends on the system."),
        fix: "Free memory, and ask again.",
    },
    Page {
        code: "C1",
        title: "no such command",
        meaning: "The first word of the line is not a command, or the words after it don't fit the command. Commands are in lower case and begin the line.",
        example: Example::Script {
            source: "CLS",
            script: "Image",
        },
        fix: "`chipbench debug --help` lists all commands with examples.",
    },
    Page {
        code: "C2",
        title: "line too long",
        meaning: "A line of a script has over 400 bytes.",
        example: Example::Told("`syms` and 397 spaces."),
        fix: "Make the line shorter. A line of a source has at most 200 bytes.",
    },
];

// The reasons why a session ends or doesn't open, and why a program stops.
static END_PAGES: [Page; 14] = [
    Page {
        code: "E1",
        title: "input fault",
        meaning: "Reading the script failed, so the session ended: `chipbench: input fault`, status 3.",
        example: Example::Told("a folder as standard input."),
        fix: "Check where standard input comes from.",
    },
    Page {
        code: "E2",
        title: "output fault",
        meaning: "A write failed or took no byte, so the session ended: `chipbench: output fault`, status 3.",
        example: Example::Told("a full disk behind standard output."),
        fix: "Check where standard output goes.",
    },
    Page {
        code: "E3",
        title: "out of memory",
        meaning: "Memory ran out, so the session ended: `chipbench: out of memory`, status 4.",
        example: Example::Told("none can be shown: it depends on the system."),
        fix: "Free memory, and run it again. `--every 100000` needs the least memory.",
    },
    Page {
        code: "E4",
        title: "too much input",
        meaning: "A script has at most 100,000 lines and 50,000,000 bytes: `chipbench: too much input`, status 3. All lines within the bounds are answered.",
        example: Example::Told("a script of 100,000 empty lines and one byte more."),
        fix: "Split the script in two.",
    },
    Page {
        code: "O1",
        title: "line too long",
        meaning: "A line of the source has over 200 bytes, so the source doesn't open.",
        example: Example::Told("a line of a semicolon and 200 bytes more."),
        fix: "Split the line in two. A binary file also has such lines.",
    },
    Page {
        code: "O2",
        title: "too many lines",
        meaning: "The source has over 4,000 lines, so it doesn't open.",
        example: Example::Told("a file of 4,001 empty lines."),
        fix: "Make the source shorter.",
    },
    Page {
        code: "O3",
        title: "out of memory",
        meaning: "Memory ran out while the source was opened: `chipbench: out of memory`, status 4.",
        example: Example::Told("none can be shown: it depends on the system."),
        fix: "Free memory, and run again.",
    },
    Page {
        code: "S1",
        title: "the program ended",
        meaning: "The machine executed EXIT.",
        example: Example::Stop("EXIT"),
        fix: "Nothing is wrong. A game that should go on jumps back before it.",
    },
    Page {
        code: "S2",
        title: "no instruction",
        meaning: "The word at pc is not an instruction. The machine executed data, or the profile lacks the instruction.",
        example: Example::Stop("DW 0"),
        fix: "`dis S A N` shows the words around pc. Put a jump or a RET before the data, or correct `--profile`.",
    },
    Page {
        code: "S3",
        title: "pc past the memory",
        meaning: "pc is above 4094, and no word begins there.",
        example: Example::Stop("JP 4095"),
        fix: "Find the jump or skip that leads there with `regs` at earlier steps.",
    },
    Page {
        code: "S4",
        title: "too many calls",
        meaning: "A seventeenth CALL without a RET.",
        example: Example::Stop("LOOP: CALL LOOP"),
        fix: "Make sure that each CALL reaches a RET. A JP goes on without coming back.",
    },
    Page {
        code: "S5",
        title: "RET without CALL",
        meaning: "RET without an open CALL.",
        example: Example::Stop("RET"),
        fix: "Execution ran into a subroutine: put a JP before it.",
    },
    Page {
        code: "S6",
        title: "past the memory's end",
        meaning: "An instruction would access a byte at or above address 4096.",
        example: Example::Stop("LD I, 4095\nLD V1, [I]"),
        fix: "Look at I with `regs` at the step before.",
    },
    Page {
        code: "S7",
        title: "no such flag register",
        meaning: "LD R, Vx or LD Vx, R with x above 7. There are only 8 flag registers.",
        example: Example::Stop("LD R, V8"),
        fix: "Use V0 to V7.",
    },
];

// The words that begin the commands of a script.
static WORD_PAGES: [Page; 14] = [
    Page {
        code: "ins",
        title: "`ins N TEXT` inserts a line before line N",
        meaning: "N is 1 up to the number of lines plus 1. TEXT is everything after the one space behind N.",
        example: Example::Answer {
            source: "SPEED EQU 5\nSTART: LD V0, SPEED\nJP START",
            script: "ins 3 ADD V0, 1",
            answer: "ok",
        },
        fix: "`rep`, `del`, `list`.",
    },
    Page {
        code: "rep",
        title: "`rep N TEXT` replaces line N",
        meaning: "TEXT is everything after the one space behind N. Without that space, the line becomes empty.",
        example: Example::Answer {
            source: "SPEED EQU 5\nSTART: LD V0, SPEED\nJP START",
            script: "rep 1 SPEED EQU 6",
            answer: "ok",
        },
        fix: "`ins`, `del`, `list`.",
    },
    Page {
        code: "del",
        title: "`del N` deletes line N",
        meaning: "The numbers of the lines after it become one less.",
        example: Example::Answer {
            source: "SPEED EQU 5\nSTART: LD V0, SPEED\nJP START",
            script: "del 3",
            answer: "ok",
        },
        fix: "`ins`, `rep`, `list`.",
    },
    Page {
        code: "kins",
        title: "`kins S K down` or `kins S K up` adds a key event",
        meaning: "Key K is down, or up, from step S on. K is 0 to 15, or #0 to #F.",
        example: Example::Answer {
            source: "SPEED EQU 5\nSTART: LD V0, SPEED\nJP START",
            script: "kins 20 5 down",
            answer: "ok",
        },
        fix: "`krep`, `kdel`.",
    },
    Page {
        code: "krep",
        title: "`krep S K down` or `krep S K up` changes a key event",
        meaning: "The session must already have an event for step S and key K.",
        example: Example::Answer {
            source: "SPEED EQU 5\nSTART: LD V0, SPEED\nJP START",
            script: "kins 20 5 down\nkrep 20 5 up",
            answer: "ok\nok",
        },
        fix: "`kins`, `kdel`.",
    },
    Page {
        code: "kdel",
        title: "`kdel S K` deletes a key event",
        meaning: "The session must have an event for step S and key K.",
        example: Example::Answer {
            source: "SPEED EQU 5\nSTART: LD V0, SPEED\nJP START",
            script: "kins 20 5 down\nkdel 20 5",
            answer: "ok\nok",
        },
        fix: "`kins`, `krep`.",
    },
    Page {
        code: "image",
        title: "`image` shows the bytes that the source assembles to",
        meaning: "The bytes are in hexadecimal on one line, from address #200 on.",
        example: Example::Answer {
            source: "SPEED EQU 5\nSTART: LD V0, SPEED\nJP START",
            script: "image",
            answer: "60051200",
        },
        fix: "`dis` and `list` show them by lines.",
    },
    Page {
        code: "syms",
        title: "`syms` shows the names",
        meaning: "Each name has its value in decimal and its line. A point ends the answer.",
        example: Example::Answer {
            source: "SPEED EQU 5\nSTART: LD V0, SPEED\nJP START",
            script: "syms",
            answer: "SPEED 5 1\nSTART 512 2\n.",
        },
        fix: "`list`.",
    },
    Page {
        code: "list",
        title: "`list` shows the lines with what they assemble to",
        meaning: "Each line has its number, its address, and its bytes, its fault such as F9, or its value such as =5. A point ends the answer.",
        example: Example::Answer {
            source: "SPEED EQU 5\nSTART: LD V0, SPEED\nJP START",
            script: "list",
            answer: "   1 0200 =5            SPEED EQU 5\n   2 0200 6005          START: LD V0, SPEED\n   3 0202 1200          JP START\n.",
        },
        fix: "`faults` shows the faults alone.",
    },
    Page {
        code: "faults",
        title: "`faults` shows the lines that have a fault",
        meaning: "Each line has its number and its code. A point ends the answer.",
        example: Example::Answer {
            source: "START: LD V0, 5\nJP STRAT",
            script: "faults",
            answer: "2 F9\n.",
        },
        fix: "`chipbench explain F9`, and `chipbench check game.asm`, which shows the place.",
    },
    Page {
        code: "regs",
        title: "`regs S` shows the registers at step S",
        meaning: "The first line has V0 to VF. The second has pc, I, the two timers, the number of random bytes used, the size of the screen, and `run` or the stop. The third has the flags and the call stack.",
        example: Example::Answer {
            source: "SPEED EQU 5\nSTART: LD V0, SPEED\nJP START",
            script: "regs 3",
            answer: "v 05 00 00 00 00 00 00 00 00 00 00 00 00 00 00 00\npc 0202 i 0000 dt 00 st 00 draws 0 low run\nflags 00 00 00 00 00 00 00 00 stack",
        },
        fix: "`screen`, `mem`, `dis`.",
    },
    Page {
        code: "mem",
        title: "`mem S A N` shows N bytes of memory at step S from address A",
        meaning: "The bytes are in hexadecimal on one line.",
        example: Example::Answer {
            source: "SPEED EQU 5\nSTART: LD V0, SPEED\nJP START",
            script: "mem 0 #200 4",
            answer: "60051200",
        },
        fix: "`dis`.",
    },
    Page {
        code: "screen",
        title: "`screen S` shows the lit rows of the screen at step S",
        meaning: "The first line is the size, `low` or `high`. Each other line has the number of a row and its 128 pixels in hexadecimal. A point ends the answer.",
        example: Example::Answer {
            source: "LD F, V0\nDRW V1, V1, 1",
            script: "screen 2",
            answer: "low\n00 ff000000000000000000000000000000\n01 ff000000000000000000000000000000\n.",
        },
        fix: "`chipbench picture` draws it.",
    },
    Page {
        code: "dis",
        title: "`dis S A N` shows N words of memory at step S from address A",
        meaning: "Each line has an address, the word there and its source text. A point ends the answer.",
        example: Example::Answer {
            source: "SPEED EQU 5\nSTART: LD V0, SPEED\nJP START",
            script: "dis 0 #200 2",
            answer: "0200 6005 LD V0, #05\n0202 1200 JP #200\n.",
        },
        fix: "`mem`, and `chipbench dis` for an image.",
    },
];
