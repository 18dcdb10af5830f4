//! Laws of what a login promises of all its answers, for a caller that keeps them: each is a function that
//! does nothing, whose contract is the law.

ghost use Rattle.std.specs.Prelude.{◌≡◌, ◌≤◌, ◌<◌, ◌^◌, ◌∷◌, ◌++◌, [], ℕ, List, Some, None, true, length, map};
ghost use Rattle.nb_terms.specs.declared.cause.Cause.{Cause};
ghost use Rattle.nb_login.specs.declared.info.LoginInfo.{LoginInfo};
ghost use Rattle.nb_login.specs.declared.session.Session.{Session};
ghost use Rattle.nb_login.specs.declared.step.NextRequest.{NextRequest};
ghost use Rattle.nb_iscsipdu.specs.KeyTexts.{texts_between};
ghost use Rattle.nb_login.specs.Infos.{is_set, asks_back};
ghost use Rattle.nb_login.specs.Refusals.{zero_name};
ghost use Rattle.nb_login.specs.KeysSent.{request_lines};
ghost use Rattle.nb_login.specs.Asking.{login_text, carried_keys, request_keys};
ghost use Rattle.nb_login.specs.LoginHistory.{PduCame, LoginEntry, LoginMeets, end_given, last_done, repeats};
ghost use Rattle.nb_login.specs.LoginStands.{session_opened};
ghost use Rattle.nb_login.specs.LoginEndings.{LoginEnding, HasProof};
ghost use Rattle.nb_login.specs.LoginTexts.{LoginsSayOnlyRequests};
ghost use Rattle.nb_login.specs.LoginRecords.{RecordsShowInEndsAlone, EndsAreEnds};
ghost use Rattle.nb_login.specs.Logins.{login_history, login_said, login_end, login_session, with_secret, with_reverse_secret, HasSameResponse, IsLoginText, HasUsualNames};

/// An answer gives an end exactly where its cause stands in what came and what had been asked: `LoginEnding` has
/// what stands after each.
pub fn ends_for_a_cause()
    ensures caused { (i : LoginInfo) (h : List LoginEntry) (e : LoginEntry) (later : List LoginEntry) (cause : Cause)
        → LoginMeets i (h ++ e ∷ later) → end_given e.does ≡ Some cause → LoginEnding i h e cause }
    ensures ends { (i : LoginInfo) (h : List LoginEntry) (e : LoginEntry) (later : List LoginEntry) (cause : Cause)
        → LoginMeets i (h ++ e ∷ later) → LoginEnding i h e cause → end_given e.does ≡ Some cause }
{}

/// A session that was opened where the target is to answer our challenge has its answer: the one to the request
/// with our challenge has the target's name and the right response.
pub fn opens_after_proof()
    ensures { (i : LoginInfo) (h : List LoginEntry) (s : Session) → LoginMeets i h → asks_back i ≡ true
        → session_opened i h ≡ Some s → HasProof i h }
{}

/// A login has an end by its eighth answer, and makes at most four requests without keys.
pub fn ends_by_the_eighth_answer()
    ensures { (i : LoginInfo) (h : List LoginEntry) → LoginMeets i h → (length h ≤ 8) × (repeats h ≤ 4) }
{}

/// What a login does is a function of what came: each list of PDUs has one history, which meets the promise, and
/// what is said stays said when more comes.
pub fn what_came_determines_it()
    ensures meets { (i : LoginInfo) (ms : List PduCame) → LoginMeets i (login_history i ms) }
    ensures one { (i : LoginInfo) (h : List LoginEntry) → LoginMeets i h → h ≡ login_history i (map (λ e. e.came) h) }
    ensures ends { (i : LoginInfo) (h : List LoginEntry) → LoginMeets i h
        → end_given (last_done h) ≡ login_end i (map (λ e. e.came) h) }
    ensures session { (i : LoginInfo) (h : List LoginEntry) → LoginMeets i h
        → session_opened i h ≡ login_session i (map (λ e. e.came) h) }
    ensures more { (i : LoginInfo) (ms more : List PduCame) → (rest : List ℕ)
        × (login_said i (ms ++ more) ≡ login_said i ms ++ rest) }
{}

/// Of the secrets, the requests show nothing but our response to the target's challenge, and whether there is a
/// secret: with another secret of the same response they are the same. The target's secret is in none.
pub fn secrets_are_not_sent()
    ensures own { (i : LoginInfo) (secret : List ℕ) (request : NextRequest) (sn : ℕ) → is_set secret ≡ is_set i.secret
        → HasSameResponse i secret request → login_text (with_secret i secret) request sn ≡ login_text i request sn }
    ensures reverse { (i : LoginInfo) (secret : List ℕ) (request : NextRequest) (sn : ℕ)
        → login_text (with_reverse_secret i secret) request sn ≡ login_text i request sn }
{}

/// Each request is an immediate Login Request of the task 1, with CmdSN 1 and its ExpStatSN, and nothing else is
/// said; with names of usual lengths it has all of its keys.
pub fn requests_are_pdus()
    ensures fields { (i : LoginInfo) (request : NextRequest) (sn : ℕ) → sn < 2 ^ 32
        → IsLoginText (login_text i request sn) sn (carried_keys (request_keys i request)) }
    ensures keys { (i : LoginInfo) (request : NextRequest) → HasUsualNames i
        → carried_keys (request_keys i request) ≡ request_keys i request }
    ensures alone { LoginsSayOnlyRequests }
{}

/// A login that is begun sends the keys of each request and no others: whoever reads its texts between zero bytes
/// finds these, in this order, whatever its names and secrets are.
pub fn settings_add_no_keys()
    ensures { (i : LoginInfo) (request : NextRequest) → zero_name i ≡ None
        → texts_between (request_keys i request) ≡ request_lines i request ++ [] ∷ [] }
{}

/// Logins that were given the same PDUs say the same, have as many answers and open the same session, whichever
/// records brought them; one that has opened a session, or given an end, has ended.
pub fn records_show_in_ends_alone()
    ensures alike { RecordsShowInEndsAlone }
    ensures ends { EndsAreEnds }
{}
