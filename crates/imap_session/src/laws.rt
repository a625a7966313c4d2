//! What holds of every command, whatever the store answers.

ghost use Rattle.imap_grammar.specs.declared.command.Command.{Command};
ghost use Rattle.imap_grammar.specs.declared.command.ImapFault.{ImapFault};
ghost use Rattle.mailbox.specs.declared.clients.MailFault.{MailFault};
ghost use Rattle.std.specs.Prelude.{◌≡◌, ◌&&◌, ◌++◌, ℕ, Bool, true, List, Option, Some};
ghost use Rattle.delivery_token.specs.declared.Verdict.{Verdict};
ghost use Rattle.imap_session.specs.Exchange.{Exchange, PendingLiteral, Mailing, Origin, Standing, refusal_text};
ghost use Rattle.imap_session.specs.Happenings.{kept_tag};
ghost use Rattle.imap_session.specs.Commands.{answering, appended_words, fault_tag, fault_text, given_up, on_idle_line, on_rest, on_verdict, turn_of_long_line, unfinished, with_bytes};
ghost use Rattle.imap_session.specs.Shows.{DoneShowsInOrder, PartShowsNone, RestShowsNone, ShowsInOrder, VerdictShowsInOrder};
ghost use Rattle.imap_session.specs.Telling.{LineTellsNoUid, RefusalTellsNoUid, TellsNoUid, VerdictTellsUid, WordsTellWhich, tells_uid};
ghost use Rattle.imap_session.specs.Texts.{IsLineText, response_text, server_text};
ghost use Rattle.imap_session.specs.declared.texts.ResponseText.TheVariants as texts;
ghost use Rattle.imap_session.specs.declared.texts.ServerText.{ServerText};
ghost use Rattle.imap_session.specs.declared.standing.Profile.{Profile};
ghost use Rattle.imap_session.specs.declared.standing.Selected.{Selected};
ghost use Rattle.imap_session.specs.declared.texts.ResponseText.{ResponseText};

/// Changes are shown right before the tagged OK of NOOP, CHECK, EXPUNGE, STATUS, LIST, LSUB, UID FETCH, UID STORE, UID SEARCH and UID EXPUNGE, and as EXPUNGE
/// and UID EXPUNGE remove messages: nowhere else, and no other line that these commands say is of that kind. Where a mailbox is selected no such
/// tagged OK comes without them. A command that isn't carried out shows none. A plain FETCH and a plain STORE show none (RFC 9051, 7.5.1), and IDLE shows none before its turns.
pub fn changes_are_shown_in_order()
    ensures { (tag : List ℕ) (now : Standing) (command : Command)
        → ShowsInOrder tag now command (answering tag now command) }
{}

/// The line that ends an IDLE shows changes right before its tagged OK where it is DONE. Any other line shows none.
pub fn done_shows_in_order()
    ensures { (selected : Option Selected) (line : List ℕ)
        → DoneShowsInOrder selected line (on_idle_line selected line) }
{}

/// What stands behind a literal shows no changes, asks nothing of the store and has no tagged OK: the message is refused, or it is submitted and
/// nothing is said before the verdict on it.
pub fn rest_shows_none()
    ensures { (mailing : Mailing) (begun : PendingLiteral) (ends : Bool)
        → RestShowsNone (on_rest mailing begun ends) }
{}

/// A line that isn't whole yet shows no changes, asks nothing of the store and has no tagged OK; nor has one that is given up.
pub fn parts_show_none()
    ensures unfinished { (profile : Profile) (login : Option (List ℕ)) (line tag : List ℕ)
        (x : Exchange) → unfinished profile login line ≡ Some (tag, x) → PartShowsNone x }
    ensures given_up { (rest : List ℕ)
        → PartShowsNone (given_up rest texts.LineTooLong texts.LiteralTooBig)
        × PartShowsNone (given_up rest texts.OutOfMemory texts.ByeOutOfMemory) }
{}

/// The verdict on a message that was appended or copied shows changes right before the tagged OK, where a mailbox is selected; of one that is moved also
/// before it is removed. A message that was refused has no tagged OK, and shows none.
pub fn verdicts_show_in_order()
    ensures { (mailing : Mailing) (selected : Option Selected) (origin : Origin) (mailbox : ℕ)
        (verdict : Verdict) → VerdictShowsInOrder selected origin verdict (on_verdict mailing selected origin mailbox verdict) }
{}

/// A tagged last line begins `OK [APPENDUID` where it answers a verdict that was `Stored`, on a message that was appended, and nowhere else: not where it ends a command or an IDLE,
/// not behind a literal, not for a line that is too long or no command, and not where the message is refused or the store or memory refuses. It tells
/// that verdict's UID, behind the UIDVALIDITY that the store told of the mailbox. So a client that reads such a line under the tag of its APPEND may
/// conclude that its message was stored, under this UID (RFC 9051, 6.3.12; RFC 4315, 3).
pub fn only_a_stored_verdict_tells_a_uid()
    // Words that tell a UID begin `OK [APPENDUID `, and the same words tell the same UIDVALIDITY and UID.
    ensures words { (uidvalidity uid : ℕ) → tells_uid (appended_words uidvalidity uid) ≡ true }
    ensures numbers { WordsTellWhich }

    // Where the verdict on an appended message was `Stored`, the last line tells its UID, behind the UIDVALIDITY as the mailbox was counted; else none.
    ensures verdicts { (mailing : Mailing) (selected : Option Selected) (origin : Origin)
        (mailbox : ℕ) (verdict : Verdict) → VerdictTellsUid selected origin mailbox verdict (on_verdict mailing selected origin mailbox verdict) }

    // No last line of a command, of an IDLE, or behind a literal tells one.
    ensures commands { (tag : List ℕ) (now : Standing) (command : Command)
        → TellsNoUid (answering tag now command) }
    ensures idling { (selected : Option Selected) (line : List ℕ)
        → TellsNoUid (on_idle_line selected line) }
    ensures rest { (mailing : Mailing) (begun : PendingLiteral) (ends : Bool)
        → TellsNoUid (on_rest mailing begun ends) }

    // Nor does the line for no command, for one that is too long, or for a refusal of the store or of memory.
    ensures faults { (profile : Profile) (fault : ImapFault)
        → LineTellsNoUid (fault_tag fault) (fault_text profile fault) }
    ensures long { (now : Standing) → LineTellsNoUid (kept_tag now) (turn_of_long_line now).bytes }
    ensures refusals { (tag : List ℕ) (fault : MailFault)
        → RefusalTellsNoUid tag (refusal_text tag fault) }
{}

/// However the bytes of a literal are cut, the session comes to stand where it would by all at once.
pub fn literals_may_be_cut()
    ensures { (now : Standing) (front back : List ℕ) (kept also_kept : Bool) →
        with_bytes also_kept back (with_bytes kept front now)
        ≡ with_bytes (kept && also_kept) (front ++ back) now }
{}

/// Each text of the tables goes on one line, whatever it is said behind: it isn't empty, all its bytes are printable ASCII, so that it has no CR, LF or
/// NUL, and it announces no literal (RFC 9051, 4.3 and 9: resp-text).
pub fn texts_go_on_a_line()
    ensures texts { (text : ResponseText) → IsLineText (response_text text) }
    ensures server { (text : ServerText) → IsLineText (server_text text) }
{}
