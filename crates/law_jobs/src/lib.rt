//! What users of jobs beside the loop rely on, over every run. Each function has no body: its
//! clauses are the law. `A`, `B` and `D` are what the other parts of what is added keep, whatever
//! these are.
#![tactic(auto)]

ghost use Rattle.std.specs.Prelude.{◌≡◌, ℕ, ℤ, List, [], Some};
ghost use Rattle.model_value.specs.Input.{Input};
ghost use Rattle.model_value.specs.Value.{Value};
ghost use Rattle.model_tree.specs.Syntax.{Program};
ghost use Rattle.model_wire.specs.Journal.{Entry};
ghost use Rattle.model_machine.specs.Extra.{Extra};
ghost use Rattle.model_machine.specs.State.{State, start};
ghost use Rattle.model_reach.specs.Reach.{OfExec, Parted, part_of_code, part_of_key, reach};
ghost use Rattle.model_exec.specs.Execed.{Execed, none_execed};
ghost use Rattle.model_exec.specs.Serving.{asked, exec_means};
ghost use Rattle.law_calls.specs.Tells.{IsRunIn};
ghost use Rattle.law_jobs.specs.Notes.{AreBorneOut, AreHonest, AreOwnJobs, JobsKeep, Note};
ghost use Rattle.law_jobs.specs.Runs.{ComesByTries, called_in, served_in};
ghost use Rattle.law_jobs.specs.Tries.{Try, heard, kept_after, notes, woken_at};

/// Each request is served as its definition says, whatever else is added and keeps: as a task asks
/// it, as the outside answers, and as its task goes on; and so are news. What the other parts keep
/// stays.
pub fn requests_answer_by_their_definition<A, B, D>()
    ensures asked { (gather : Extra A) (sync : Extra B) (dgram : Extra D) (task : ℕ) (code : ℤ)
        (arguments : List Value) (s : State (Parted A B Execed D)) → part_of_code code ≡ Some OfExec
        → (reach gather sync exec_means dgram).ask task code arguments s
        ≡ served_in (asked code arguments s.extra.exec) s.extra }
    ensures goes_on { (gather : Extra A) (sync : Extra B) (dgram : Extra D) (key : ℕ) (input : Input)
        (s : State (Parted A B Execed D)) → part_of_key key ≡ OfExec
        → (reach gather sync exec_means dgram).wake key input s
        ≡ served_in (woken_at key input s.loop.parts s.extra.exec) s.extra }
    ensures news { (gather : Extra A) (sync : Extra B) (dgram : Extra D) (code : ℤ) (bytes : List ℕ)
        (s : State (Parted A B Execed D)) → part_of_code code ≡ Some OfExec
        → (reach gather sync exec_means dgram).item code bytes s
        ≡ called_in (heard code bytes s.extra.exec) s.extra }
{}

/// Jobs are numbered from 0 as they are accepted, each number once, and a request has one at most.
/// What a request answers is what the first news of its job said, after it was accepted. News are
/// waited for exactly where a job was accepted and came to nothing so far. So it is whatever is
/// asked and told (`tries`); and in each state of each run, of what happens of jobs in it (`runs`).
pub fn jobs_keep_their_promise<A, B, D>()
    ensures tries { (all : List Try) → JobsKeep (notes all none_execed) (kept_after all none_execed) }
    ensures runs { (limit : ℕ) (gather : Extra A) (sync : Extra B) (dgram : Extra D)
        (first : Parted A B Execed D) → first.exec ≡ none_execed → (most : ℕ) (program : Program)
        (answers : List Entry) (turns : ℕ)
        → IsRunIn (ComesByTries limit gather sync dgram first JobsKeep) limit
        (reach gather sync exec_means dgram) turns (start most first program answers) }
{}

/// Where news of a job that goes on say what the job comes to that its request wants, each request
/// that answers, answers its own job.
pub fn each_request_answers_its_own_job()
    ensures { (all : List Note) → AreBorneOut [] all → AreHonest [] all → AreOwnJobs [] all }
{}
