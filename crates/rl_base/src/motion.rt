//! How motions and edits are asked for.

/// How often a motion or an edit is repeated (GNU readline's numeric argument).
pub type RepeatCount = u16;

/// What counts as a word. A grapheme cluster belongs to a word as a whole or not at all.
#[derive(Clone, Copy, Debug, Eq, PartialEq)]
pub enum Word {
    /// Clusters without a blank (vi's WORD, readline's `unix-word-rubout`).
    Big,
    /// Clusters of letters and numbers (readline's `forward-word`).
    Emacs,
    /// Letters, numbers and the underscore; other clusters without a blank make words of their own (vi's word).
    Vi,
}

/// Where a motion to the next word stops.
#[derive(Clone, Copy, Debug, Eq, PartialEq)]
pub enum At {
    /// At a word's first cluster (vi's `w`).
    Start,
    /// At a word's last cluster (vi's `e`); for `Word::Emacs` after it.
    BeforeEnd,
    /// After a word (readline's `forward-word`).
    AfterEnd,
}

/// What an edit of a word makes of its letters.
#[derive(Clone, Copy, Debug, Eq, PartialEq)]
pub enum WordAction {
    /// The first cluster in upper case, the others in lower case (readline's `capitalize-word`).
    Capitalize,
    /// Lower case (readline's `downcase-word`).
    Lowercase,
    /// Upper case (readline's `upcase-word`).
    Uppercase,
}

/// Where a text is put, relative to the cursor. No call of these crates takes it: it is for an editor's commands.
#[derive(Clone, Copy, Debug, Eq, PartialEq)]
pub enum Anchor {
    /// After the cursor (vi's `p`).
    After,
    /// Before the cursor (vi's `P`).
    Before,
}

/// A search for a character.
#[derive(Clone, Copy, Debug, Eq, PartialEq)]
pub enum CharSearch {
    /// Ahead, to the character (vi's `f`).
    Forward(char),
    /// Ahead, to the character before it (vi's `t`).
    ForwardBefore(char),
    /// Back, to the character (vi's `F`).
    Backward(char),
    /// Back, to the place after the character (vi's `T`).
    BackwardAfter(char),
}

/// Where a motion goes, or what an edit covers.
#[derive(Clone, Debug, Drop, Eq, PartialEq)]
pub enum Movement {
    /// The cursor's line without its newline.
    WholeLine,
    /// The start of the line (readline's `beginning-of-line`, vi's `0`).
    BeginningOfLine,
    /// The end of the line (readline's `end-of-line`, vi's `$`).
    EndOfLine,
    /// Back by words (readline's `backward-word`, vi's `b`).
    BackwardWord(RepeatCount, Word),
    /// Ahead by words (readline's `forward-word`, vi's `w` and `e`).
    ForwardWord(RepeatCount, At, Word),
    /// To a character (vi's `f`, `t`, `F` and `T`).
    ViCharSearch(RepeatCount, CharSearch),
    /// To the first place after the text's start where a `Big` word starts (modelled on vi's `^`).
    ViFirstPrint,
    /// To the first character of the cursor's line that is no blank (White_Space), or to the line's end if there is none
    /// (vi's `^`, Emacs's `back-to-indentation`).
    FirstNonBlank,
    /// Back by grapheme clusters (readline's `backward-char`, vi's `h`).
    BackwardChar(RepeatCount),
    /// Ahead by grapheme clusters (readline's `forward-char`, vi's `l`).
    ForwardChar(RepeatCount),
    /// Up by lines (readline's `previous-screen-line`, vi's `k`).
    LineUp(RepeatCount),
    /// Down by lines (readline's `next-screen-line`, vi's `j`).
    LineDown(RepeatCount),
    /// So many whole lines with their newlines, at least one: the cursor's line and those above it (vi's `dk`).
    WholeLinesUp(RepeatCount),
    /// So many whole lines with their newlines, at least one: the cursor's line and those below it (vi's `dd`, `dj`).
    WholeLinesDown(RepeatCount),
    /// The whole text.
    WholeBuffer,
    /// The start of the text (vi's `gg`).
    BeginningOfBuffer,
    /// The end of the text (vi's `G`).
    EndOfBuffer,
}
