//! Models of algorithms in Promela, as texts.

use promela::fixed::{MODEL_END, MODEL_HEAD, MODEL_MOVES, MODEL_PROCESS};
use std::alloc::{AllocError, Global};

/// The parts of a model between those that are fixed: what is defined, what is declared, the private names, and the starts.
pub type ModelParts = [&'static str; 4];

/// Peterson's lock for two, with one crash.
pub const PETERSON: ModelParts = [
    r#"/* The algorithm peterson, written by rmelab export. */
#define PROCS 2
#define LIMIT 1
#define CRASHES 1
#define LINES 13
#define MOST_INSIDE 1
#define REENTRY 1
#define ORDER 0
#define EXIT_BOUND NO_BOUND
#define RECOVERY_BOUND NO_BOUND
#define DOORWAY_BOUND NO_BOUND
#define LOCK 0
#define UNLOCK 10
#define RECOVER LINES
#define WITHDRAW LINES
#define MAY_WITHDRAW (false)
"#,
    r#"#define SIZE_0 2
int w_flag_0[2];
#define SIZE_1 1
int w_turn_1[1];
hidden int n_f_0;
hidden int n_t_1;
inline take_names() {
  TAKE(f_0); TAKE(t_1); has_store = 0
}

inline forget() {
  FORGET(f_0); FORGET(t_1); skip
}

inline access() {
  if
  :: at_line == 0 -> TRY(_pid < SIZE_0 && 1 <= 1 && true, word_index = _pid; SET(new_value, 1); has_store = 1; at_line = 1)
  :: at_line == 1 -> TRY(1 >= _pid && (1 - _pid) <= 1 && true, word_index = 0; SET(new_value, (1 - _pid)); has_store = 1; at_line = 2)
  :: at_line == 2 -> TRY(1 >= _pid && (1 - _pid) < SIZE_0 && true, word_index = (1 - _pid); n_f_0 = w_flag_0[word_index]; at_line = 3)
  :: at_line == 5 -> TRY(true, word_index = 0; n_t_1 = w_turn_1[word_index]; at_line = 6)
  :: at_line == 10 -> TRY(_pid < SIZE_0 && 0 <= 1 && true, word_index = _pid; SET(new_value, 0); has_store = 1; at_line = 11)
  :: else -> skip
  fi
}

inline local_lines() {
  do
  :: at_line == 0 -> FORGET(f_0); FORGET(t_1); place = 0; at_line = ARRIVED
  :: at_line == 1 -> FORGET(f_0); FORGET(t_1); place = 1; at_line = ARRIVED
  :: at_line == 2 -> FORGET(f_0); FORGET(t_1); place = 2; at_line = ARRIVED
  :: at_line == 3 -> TRY(true, if :: (n_f_0 == 0) -> at_line = 4 :: else -> at_line = 5 fi)
  :: at_line == 4 -> at_line = 8
  :: at_line == 5 -> FORGET(f_0); FORGET(t_1); place = 5; at_line = ARRIVED
  :: at_line == 6 -> TRY(true, if :: (n_t_1 != _pid) -> at_line = 7 :: else -> at_line = 8 fi)
  :: at_line == 7 -> at_line = 2
  :: at_line == 8 -> note(ENTER_DEED)
  :: at_line == 9 -> FORGET(f_0); FORGET(t_1); place = REST; at_line = ARRIVED
  :: at_line == 10 -> FORGET(f_0); FORGET(t_1); place = 10; at_line = ARRIVED
  :: at_line == 11 -> note(LEAVE_DEED)
  :: at_line == 12 -> FORGET(f_0); FORGET(t_1); place = REST; at_line = ARRIVED
  :: else -> break
  od;
  skip
}

inline store() {
  if
  :: at_line != LEFT_OUT && has_store && from_line == 0 -> w_flag_0[word_index] = new_value
  :: at_line != LEFT_OUT && has_store && from_line == 1 -> w_turn_1[word_index] = new_value
  :: at_line != LEFT_OUT && has_store && from_line == 10 -> w_flag_0[word_index] = new_value
  :: else -> skip
  fi
}

"#,
    r#"  int p_f_0;
  int p_t_1;
"#,
    r#"  :: d_step { IS_IDLE && phase[_pid] != INSIDE -> START(LOCK) }
  :: d_step { IS_IDLE && phase[_pid] == INSIDE -> START(UNLOCK) }
"#,
];

/// The MCS lock for two.
pub const MCS: ModelParts = [
    r#"/* The algorithm mcs, written by rmelab export. */
#define PROCS 2
#define LIMIT 4
#define CRASHES 0
#define LINES 20
#define MOST_INSIDE 1
#define REENTRY 0
#define ORDER 1
#define EXIT_BOUND NO_BOUND
#define RECOVERY_BOUND NO_BOUND
#define DOORWAY_BOUND NO_BOUND
#define LOCK 0
#define UNLOCK 10
#define RECOVER LINES
#define WITHDRAW LINES
#define MAY_WITHDRAW (false)
"#,
    r#"#define SIZE_0 1
int w_tail_0[1];
#define SIZE_1 2
int w_next_1[2];
#define SIZE_2 2
int w_locked_2[2];
hidden int n_p_0;
hidden int n_l_1;
hidden int n_n_2;
hidden int n_t_3;
inline take_names() {
  TAKE(p_0); TAKE(l_1); TAKE(n_2); TAKE(t_3); has_store = 0
}

inline forget() {
  FORGET(p_0); FORGET(l_1); FORGET(n_2); FORGET(t_3); skip
}

inline access() {
  if
  :: at_line == 0 -> TRY(_pid < SIZE_1 && 0 <= PROCS && true, word_index = _pid; SET(new_value, 0); has_store = 1; at_line = 1)
  :: at_line == 2 -> TRY(true, word_index = 0; n_p_0 = w_tail_0[word_index]; TRY((_pid + 1) <= PROCS && true, SET(new_value, (_pid + 1)); has_store = 1; at_line = 3))
  :: at_line == 5 -> TRY(_pid < SIZE_2 && 1 <= 1 && true, word_index = _pid; SET(new_value, 1); has_store = 1; at_line = 6)
  :: at_line == 6 -> TRY(n_p_0 >= 1 && (n_p_0 - 1) < SIZE_1 && (_pid + 1) <= PROCS && true, word_index = (n_p_0 - 1); SET(new_value, (_pid + 1)); has_store = 1; at_line = 7)
  :: at_line == 7 -> TRY(_pid < SIZE_2 && true, word_index = _pid; n_l_1 = w_locked_2[word_index]; TRY(true, if :: (n_l_1 == 0) -> at_line = 8 :: else -> at_line = BLOCKED fi))
  :: at_line == 10 -> TRY(_pid < SIZE_1 && true, word_index = _pid; n_n_2 = w_next_1[word_index]; at_line = 11)
  :: at_line == 12 -> TRY(true, word_index = 0; n_t_3 = w_tail_0[word_index]; TRY(true, if :: (n_t_3 == (_pid + 1)) -> TRY(0 <= PROCS && true, SET(new_value, 0); has_store = 1; at_line = 13) :: else -> at_line = 13 fi))
  :: at_line == 16 -> TRY(_pid < SIZE_1 && true, word_index = _pid; n_n_2 = w_next_1[word_index]; TRY(true, if :: (n_n_2 != 0) -> at_line = 17 :: else -> at_line = BLOCKED fi))
  :: at_line == 17 -> TRY(n_n_2 >= 1 && (n_n_2 - 1) < SIZE_2 && 0 <= 1 && true, word_index = (n_n_2 - 1); SET(new_value, 0); has_store = 1; at_line = 18)
  :: else -> skip
  fi
}

inline local_lines() {
  do
  :: at_line == 0 -> FORGET(p_0); FORGET(l_1); FORGET(n_2); FORGET(t_3); place = 0; at_line = ARRIVED
  :: at_line == 1 -> note(BEGIN_DEED)
  :: at_line == 2 -> FORGET(p_0); FORGET(l_1); FORGET(n_2); FORGET(t_3); place = 2; at_line = ARRIVED
  :: at_line == 3 -> note(READY_DEED)
  :: at_line == 4 -> TRY(true, if :: (n_p_0 != 0) -> at_line = 5 :: else -> at_line = 8 fi)
  :: at_line == 5 -> KEEP(p_0); FORGET(l_1); FORGET(n_2); FORGET(t_3); place = 5; at_line = ARRIVED
  :: at_line == 6 -> KEEP(p_0); FORGET(l_1); FORGET(n_2); FORGET(t_3); place = 6; at_line = ARRIVED
  :: at_line == 7 -> FORGET(p_0); FORGET(l_1); FORGET(n_2); FORGET(t_3); place = 7; at_line = ARRIVED
  :: at_line == 8 -> note(ENTER_DEED)
  :: at_line == 9 -> FORGET(p_0); FORGET(l_1); FORGET(n_2); FORGET(t_3); place = REST; at_line = ARRIVED
  :: at_line == 10 -> FORGET(p_0); FORGET(l_1); FORGET(n_2); FORGET(t_3); place = 10; at_line = ARRIVED
  :: at_line == 11 -> TRY(true, if :: (n_n_2 == 0) -> at_line = 12 :: else -> at_line = 17 fi)
  :: at_line == 12 -> FORGET(p_0); FORGET(l_1); FORGET(n_2); FORGET(t_3); place = 12; at_line = ARRIVED
  :: at_line == 13 -> TRY(true, if :: (n_t_3 == (_pid + 1)) -> at_line = 14 :: else -> at_line = 16 fi)
  :: at_line == 14 -> note(LEAVE_DEED)
  :: at_line == 15 -> FORGET(p_0); FORGET(l_1); FORGET(n_2); FORGET(t_3); place = REST; at_line = ARRIVED
  :: at_line == 16 -> FORGET(p_0); FORGET(l_1); FORGET(n_2); FORGET(t_3); place = 16; at_line = ARRIVED
  :: at_line == 17 -> FORGET(p_0); FORGET(l_1); KEEP(n_2); FORGET(t_3); place = 17; at_line = ARRIVED
  :: at_line == 18 -> note(LEAVE_DEED)
  :: at_line == 19 -> FORGET(p_0); FORGET(l_1); FORGET(n_2); FORGET(t_3); place = REST; at_line = ARRIVED
  :: else -> break
  od;
  skip
}

inline store() {
  if
  :: at_line != LEFT_OUT && has_store && from_line == 0 -> w_next_1[word_index] = new_value
  :: at_line != LEFT_OUT && has_store && from_line == 2 -> w_tail_0[word_index] = new_value
  :: at_line != LEFT_OUT && has_store && from_line == 5 -> w_locked_2[word_index] = new_value
  :: at_line != LEFT_OUT && has_store && from_line == 6 -> w_next_1[word_index] = new_value
  :: at_line != LEFT_OUT && has_store && from_line == 12 -> w_tail_0[word_index] = new_value
  :: at_line != LEFT_OUT && has_store && from_line == 17 -> w_locked_2[word_index] = new_value
  :: else -> skip
  fi
}

"#,
    r#"  int p_p_0;
  int p_l_1;
  int p_n_2;
  int p_t_3;
"#,
    r#"  :: d_step { IS_IDLE && phase[_pid] != INSIDE -> START(LOCK) }
  :: d_step { IS_IDLE && phase[_pid] == INSIDE -> START(UNLOCK) }
"#,
];

/// The recoverable Bakery for two.
pub const BAKERY: ModelParts = [
    r#"/* The algorithm bakery, written by rmelab export. */
#define PROCS 2
#define LIMIT 4
#define CRASHES 0
#define LINES 60
#define MOST_INSIDE 1
#define REENTRY 1
#define ORDER 1
#define EXIT_BOUND NO_BOUND
#define RECOVERY_BOUND NO_BOUND
#define DOORWAY_BOUND NO_BOUND
#define LOCK 0
#define UNLOCK 36
#define RECOVER 40
#define WITHDRAW 57
#define MAY_WITHDRAW (place == 30 || place == 31 || place == 33 || false)
"#,
    r#"#define SIZE_0 2
int w_choosing_0[2];
#define SIZE_1 2
int w_number_1[2];
#define SIZE_2 2
int w_inside_2[2];
hidden int n_c_0;
hidden int n_k_1;
hidden int n_i_2;
hidden int n_m_3;
hidden int n_j_4;
hidden int n_v_5;
inline take_names() {
  TAKE(c_0); TAKE(k_1); TAKE(i_2); TAKE(m_3); TAKE(j_4); TAKE(v_5); has_store = 0
}

inline forget() {
  FORGET(c_0); FORGET(k_1); FORGET(i_2); FORGET(m_3); FORGET(j_4); FORGET(v_5); skip
}

inline access() {
  if
  :: at_line == 0 -> TRY(_pid < SIZE_0 && true, word_index = _pid; n_c_0 = w_choosing_0[word_index]; at_line = 1)
  :: at_line == 1 -> TRY(_pid < SIZE_1 && true, word_index = _pid; n_k_1 = w_number_1[word_index]; at_line = 2)
  :: at_line == 2 -> TRY(_pid < SIZE_2 && true, word_index = _pid; n_i_2 = w_inside_2[word_index]; at_line = 3)
  :: at_line == 13 -> TRY(_pid < SIZE_2 && 0 <= 1 && true, word_index = _pid; SET(new_value, 0); has_store = 1; at_line = 14)
  :: at_line == 14 -> TRY(_pid < SIZE_0 && 1 <= 1 && true, word_index = _pid; SET(new_value, 1); has_store = 1; at_line = 15)
  :: at_line == 18 -> TRY(n_j_4 < SIZE_1 && true, word_index = n_j_4; n_v_5 = w_number_1[word_index]; at_line = 19)
  :: at_line == 22 -> TRY(_pid < SIZE_0 && 0 <= 1 && true, word_index = _pid; SET(new_value, 0); has_store = 1; at_line = 23)
  :: at_line == 26 -> TRY(_pid < SIZE_1 && n_k_1 <= LIMIT && true, word_index = _pid; SET(new_value, n_k_1); has_store = 1; at_line = 27)
  :: at_line == 28 -> TRY(_pid < SIZE_0 && 0 <= 1 && true, word_index = _pid; SET(new_value, 0); has_store = 1; at_line = 29)
  :: at_line == 30 -> TRY(n_j_4 < SIZE_0 && true, word_index = n_j_4; n_c_0 = w_choosing_0[word_index]; TRY(true, if :: (n_c_0 == 0) -> at_line = 31 :: else -> at_line = BLOCKED fi))
  :: at_line == 31 -> TRY(n_j_4 < SIZE_1 && true, word_index = n_j_4; n_v_5 = w_number_1[word_index]; TRY(((n_v_5 == 0) || true) && true, if :: ((n_v_5 == 0) || PAIRS_LESS(n_k_1, _pid, n_v_5, n_j_4)) -> at_line = 32 :: else -> at_line = BLOCKED fi))
  :: at_line == 33 -> TRY(_pid < SIZE_2 && 1 <= 1 && true, word_index = _pid; SET(new_value, 1); has_store = 1; at_line = 34)
  :: at_line == 36 -> TRY(_pid < SIZE_1 && 0 <= LIMIT && true, word_index = _pid; SET(new_value, 0); has_store = 1; at_line = 37)
  :: at_line == 38 -> TRY(_pid < SIZE_2 && 0 <= 1 && true, word_index = _pid; SET(new_value, 0); has_store = 1; at_line = 39)
  :: at_line == 40 -> TRY(_pid < SIZE_0 && true, word_index = _pid; n_c_0 = w_choosing_0[word_index]; at_line = 41)
  :: at_line == 41 -> TRY(_pid < SIZE_1 && true, word_index = _pid; n_k_1 = w_number_1[word_index]; at_line = 42)
  :: at_line == 42 -> TRY(_pid < SIZE_2 && true, word_index = _pid; n_i_2 = w_inside_2[word_index]; at_line = 43)
  :: at_line == 46 -> TRY(_pid < SIZE_0 && 0 <= 1 && true, word_index = _pid; SET(new_value, 0); has_store = 1; at_line = 47)
  :: at_line == 55 -> TRY(_pid < SIZE_2 && 0 <= 1 && true, word_index = _pid; SET(new_value, 0); has_store = 1; at_line = 56)
  :: at_line == 57 -> TRY(_pid < SIZE_1 && 0 <= LIMIT && true, word_index = _pid; SET(new_value, 0); has_store = 1; at_line = 58)
  :: else -> skip
  fi
}

inline local_lines() {
  do
  :: at_line == 0 -> FORGET(c_0); FORGET(k_1); FORGET(i_2); FORGET(m_3); FORGET(j_4); FORGET(v_5); place = 0; at_line = ARRIVED
  :: at_line == 1 -> KEEP(c_0); FORGET(k_1); FORGET(i_2); FORGET(m_3); FORGET(j_4); FORGET(v_5); place = 1; at_line = ARRIVED
  :: at_line == 2 -> KEEP(c_0); KEEP(k_1); FORGET(i_2); FORGET(m_3); FORGET(j_4); FORGET(v_5); place = 2; at_line = ARRIVED
  :: at_line == 3 -> TRY((!((n_c_0 == 1)) || true) && true, if :: ((n_c_0 == 1) && (n_k_1 == 0)) -> at_line = 4 :: else -> at_line = 5 fi)
  :: at_line == 4 -> at_line = 16
  :: at_line == 5 -> TRY(true, if :: (n_c_0 == 1) -> at_line = 6 :: else -> at_line = 7 fi)
  :: at_line == 6 -> at_line = 28
  :: at_line == 7 -> TRY((!((n_k_1 > 0)) || true) && true, if :: ((n_k_1 > 0) && (n_i_2 == 0)) -> at_line = 8 :: else -> at_line = 9 fi)
  :: at_line == 8 -> at_line = 29
  :: at_line == 9 -> TRY(true, if :: (n_k_1 > 0) -> at_line = 10 :: else -> at_line = 12 fi)
  :: at_line == 10 -> note(REENTER_DEED)
  :: at_line == 11 -> FORGET(c_0); FORGET(k_1); FORGET(i_2); FORGET(m_3); FORGET(j_4); FORGET(v_5); place = REST; at_line = ARRIVED
  :: at_line == 12 -> TRY(true, if :: (n_i_2 == 1) -> at_line = 13 :: else -> at_line = 14 fi)
  :: at_line == 13 -> FORGET(c_0); FORGET(k_1); FORGET(i_2); FORGET(m_3); FORGET(j_4); FORGET(v_5); place = 13; at_line = ARRIVED
  :: at_line == 14 -> FORGET(c_0); FORGET(k_1); FORGET(i_2); FORGET(m_3); FORGET(j_4); FORGET(v_5); place = 14; at_line = ARRIVED
  :: at_line == 15 -> note(BEGIN_DEED)
  :: at_line == 16 -> TRY(true, SET(n_m_3, 0); at_line = 17)
  :: at_line == 17 -> TRY(true, ROUND_OTHERS(n_j_4, 0, 18, 21))
  :: at_line == 18 -> FORGET(c_0); FORGET(k_1); FORGET(i_2); KEEP(m_3); KEEP(j_4); FORGET(v_5); place = 18; at_line = ARRIVED
  :: at_line == 19 -> TRY(true, SET(n_m_3, MAX(n_m_3, n_v_5)); at_line = 20)
  :: at_line == 20 -> TRY(true, ROUND_OTHERS(n_j_4, n_j_4 + 1, 18, 21))
  :: at_line == 21 -> TRY(true, if :: (n_m_3 == LIMIT) -> at_line = 22 :: else -> at_line = 25 fi)
  :: at_line == 22 -> FORGET(c_0); FORGET(k_1); FORGET(i_2); FORGET(m_3); FORGET(j_4); FORGET(v_5); place = 22; at_line = ARRIVED
  :: at_line == 23 -> note(QUIT_DEED)
  :: at_line == 24 -> FORGET(c_0); FORGET(k_1); FORGET(i_2); FORGET(m_3); FORGET(j_4); FORGET(v_5); place = REST; at_line = ARRIVED
  :: at_line == 25 -> TRY(true, SET(n_k_1, (n_m_3 + 1)); at_line = 26)
  :: at_line == 26 -> FORGET(c_0); KEEP(k_1); FORGET(i_2); FORGET(m_3); FORGET(j_4); FORGET(v_5); place = 26; at_line = ARRIVED
  :: at_line == 27 -> note(READY_DEED)
  :: at_line == 28 -> FORGET(c_0); KEEP(k_1); FORGET(i_2); FORGET(m_3); FORGET(j_4); FORGET(v_5); place = 28; at_line = ARRIVED
  :: at_line == 29 -> TRY(true, ROUND_OTHERS(n_j_4, 0, 30, 33))
  :: at_line == 30 -> FORGET(c_0); KEEP(k_1); FORGET(i_2); FORGET(m_3); KEEP(j_4); FORGET(v_5); place = 30; at_line = ARRIVED
  :: at_line == 31 -> FORGET(c_0); KEEP(k_1); FORGET(i_2); FORGET(m_3); KEEP(j_4); FORGET(v_5); place = 31; at_line = ARRIVED
  :: at_line == 32 -> TRY(true, ROUND_OTHERS(n_j_4, n_j_4 + 1, 30, 33))
  :: at_line == 33 -> FORGET(c_0); FORGET(k_1); FORGET(i_2); FORGET(m_3); FORGET(j_4); FORGET(v_5); place = 33; at_line = ARRIVED
  :: at_line == 34 -> note(ENTER_DEED)
  :: at_line == 35 -> FORGET(c_0); FORGET(k_1); FORGET(i_2); FORGET(m_3); FORGET(j_4); FORGET(v_5); place = REST; at_line = ARRIVED
  :: at_line == 36 -> FORGET(c_0); FORGET(k_1); FORGET(i_2); FORGET(m_3); FORGET(j_4); FORGET(v_5); place = 36; at_line = ARRIVED
  :: at_line == 37 -> note(LEAVE_DEED)
  :: at_line == 38 -> FORGET(c_0); FORGET(k_1); FORGET(i_2); FORGET(m_3); FORGET(j_4); FORGET(v_5); place = 38; at_line = ARRIVED
  :: at_line == 39 -> FORGET(c_0); FORGET(k_1); FORGET(i_2); FORGET(m_3); FORGET(j_4); FORGET(v_5); place = REST; at_line = ARRIVED
  :: at_line == 40 -> FORGET(c_0); FORGET(k_1); FORGET(i_2); FORGET(m_3); FORGET(j_4); FORGET(v_5); place = 40; at_line = ARRIVED
  :: at_line == 41 -> KEEP(c_0); FORGET(k_1); FORGET(i_2); FORGET(m_3); FORGET(j_4); FORGET(v_5); place = 41; at_line = ARRIVED
  :: at_line == 42 -> KEEP(c_0); KEEP(k_1); FORGET(i_2); FORGET(m_3); FORGET(j_4); FORGET(v_5); place = 42; at_line = ARRIVED
  :: at_line == 43 -> TRY((!((n_c_0 == 1)) || true) && true, if :: ((n_c_0 == 1) && (n_k_1 == 0)) -> at_line = 44 :: else -> at_line = 45 fi)
  :: at_line == 44 -> FORGET(c_0); FORGET(k_1); FORGET(i_2); FORGET(m_3); FORGET(j_4); FORGET(v_5); place = REST; at_line = ARRIVED
  :: at_line == 45 -> TRY(true, if :: (n_c_0 == 1) -> at_line = 46 :: else -> at_line = 48 fi)
  :: at_line == 46 -> FORGET(c_0); FORGET(k_1); FORGET(i_2); FORGET(m_3); FORGET(j_4); FORGET(v_5); place = 46; at_line = ARRIVED
  :: at_line == 47 -> FORGET(c_0); FORGET(k_1); FORGET(i_2); FORGET(m_3); FORGET(j_4); FORGET(v_5); place = REST; at_line = ARRIVED
  :: at_line == 48 -> TRY((!((n_k_1 > 0)) || true) && true, if :: ((n_k_1 > 0) && (n_i_2 == 0)) -> at_line = 49 :: else -> at_line = 50 fi)
  :: at_line == 49 -> FORGET(c_0); FORGET(k_1); FORGET(i_2); FORGET(m_3); FORGET(j_4); FORGET(v_5); place = REST; at_line = ARRIVED
  :: at_line == 50 -> TRY(true, if :: (n_k_1 > 0) -> at_line = 51 :: else -> at_line = 53 fi)
  :: at_line == 51 -> note(REENTER_DEED)
  :: at_line == 52 -> FORGET(c_0); FORGET(k_1); FORGET(i_2); FORGET(m_3); FORGET(j_4); FORGET(v_5); place = REST; at_line = ARRIVED
  :: at_line == 53 -> TRY(true, if :: (n_i_2 == 0) -> at_line = 54 :: else -> at_line = 55 fi)
  :: at_line == 54 -> FORGET(c_0); FORGET(k_1); FORGET(i_2); FORGET(m_3); FORGET(j_4); FORGET(v_5); place = REST; at_line = ARRIVED
  :: at_line == 55 -> FORGET(c_0); FORGET(k_1); FORGET(i_2); FORGET(m_3); FORGET(j_4); FORGET(v_5); place = 55; at_line = ARRIVED
  :: at_line == 56 -> FORGET(c_0); FORGET(k_1); FORGET(i_2); FORGET(m_3); FORGET(j_4); FORGET(v_5); place = REST; at_line = ARRIVED
  :: at_line == 57 -> FORGET(c_0); FORGET(k_1); FORGET(i_2); FORGET(m_3); FORGET(j_4); FORGET(v_5); place = 57; at_line = ARRIVED
  :: at_line == 58 -> note(QUIT_DEED)
  :: at_line == 59 -> FORGET(c_0); FORGET(k_1); FORGET(i_2); FORGET(m_3); FORGET(j_4); FORGET(v_5); place = REST; at_line = ARRIVED
  :: else -> break
  od;
  skip
}

inline store() {
  if
  :: at_line != LEFT_OUT && has_store && from_line == 13 -> w_inside_2[word_index] = new_value
  :: at_line != LEFT_OUT && has_store && from_line == 14 -> w_choosing_0[word_index] = new_value
  :: at_line != LEFT_OUT && has_store && from_line == 22 -> w_choosing_0[word_index] = new_value
  :: at_line != LEFT_OUT && has_store && from_line == 26 -> w_number_1[word_index] = new_value
  :: at_line != LEFT_OUT && has_store && from_line == 28 -> w_choosing_0[word_index] = new_value
  :: at_line != LEFT_OUT && has_store && from_line == 33 -> w_inside_2[word_index] = new_value
  :: at_line != LEFT_OUT && has_store && from_line == 36 -> w_number_1[word_index] = new_value
  :: at_line != LEFT_OUT && has_store && from_line == 38 -> w_inside_2[word_index] = new_value
  :: at_line != LEFT_OUT && has_store && from_line == 46 -> w_choosing_0[word_index] = new_value
  :: at_line != LEFT_OUT && has_store && from_line == 55 -> w_inside_2[word_index] = new_value
  :: at_line != LEFT_OUT && has_store && from_line == 57 -> w_number_1[word_index] = new_value
  :: else -> skip
  fi
}

"#,
    r#"  int p_c_0;
  int p_k_1;
  int p_i_2;
  int p_m_3;
  int p_j_4;
  int p_v_5;
"#,
    r#"  :: d_step { IS_IDLE && phase[_pid] != INSIDE -> START(LOCK) }
  :: d_step { IS_IDLE && phase[_pid] == INSIDE -> START(UNLOCK) }
  :: d_step { IS_IDLE && phase[_pid] != INSIDE -> START(RECOVER) }
  :: d_step { MAY_WITHDRAW -> START(WITHDRAW) }
"#,
];

/// The lock of Craig, Landin and Hagersten for two.
pub const CLH: ModelParts = [
    r#"/* The algorithm clh, written by rmelab export. */
#define PROCS 2
#define LIMIT 4
#define CRASHES 0
#define LINES 15
#define MOST_INSIDE 1
#define REENTRY 0
#define ORDER 1
#define EXIT_BOUND NO_BOUND
#define RECOVERY_BOUND NO_BOUND
#define DOORWAY_BOUND NO_BOUND
#define LOCK 0
#define UNLOCK 9
#define RECOVER LINES
#define WITHDRAW LINES
#define MAY_WITHDRAW (false)
"#,
    r#"#define SIZE_0 1
int w_tail_0[1] = {2};
#define SIZE_1 3
int w_busy_1[3];
#define SIZE_2 2
int w_mine_2[2] = {0, 1};
#define SIZE_3 2
int w_before_3[2];
hidden int n_i_0;
hidden int n_p_1;
hidden int n_b_2;
inline take_names() {
  TAKE(i_0); TAKE(p_1); TAKE(b_2); has_store = 0
}

inline forget() {
  FORGET(i_0); FORGET(p_1); FORGET(b_2); skip
}

inline access() {
  if
  :: at_line == 0 -> TRY(_pid < SIZE_2 && true, word_index = _pid; n_i_0 = w_mine_2[word_index]; at_line = 1)
  :: at_line == 2 -> TRY(n_i_0 < SIZE_1 && 1 <= 1 && true, word_index = n_i_0; SET(new_value, 1); has_store = 1; at_line = 3)
  :: at_line == 3 -> TRY(true, word_index = 0; n_p_1 = w_tail_0[word_index]; TRY(n_i_0 <= PROCS && true, SET(new_value, n_i_0); has_store = 1; at_line = 4))
  :: at_line == 5 -> TRY(_pid < SIZE_3 && n_p_1 <= PROCS && true, word_index = _pid; SET(new_value, n_p_1); has_store = 1; at_line = 6)
  :: at_line == 6 -> TRY(n_p_1 < SIZE_1 && true, word_index = n_p_1; n_b_2 = w_busy_1[word_index]; TRY(true, if :: (n_b_2 == 0) -> at_line = 7 :: else -> at_line = BLOCKED fi))
  :: at_line == 9 -> TRY(_pid < SIZE_2 && true, word_index = _pid; n_i_0 = w_mine_2[word_index]; at_line = 10)
  :: at_line == 10 -> TRY(_pid < SIZE_3 && true, word_index = _pid; n_p_1 = w_before_3[word_index]; at_line = 11)
  :: at_line == 11 -> TRY(_pid < SIZE_2 && n_p_1 <= PROCS && true, word_index = _pid; SET(new_value, n_p_1); has_store = 1; at_line = 12)
  :: at_line == 12 -> TRY(n_i_0 < SIZE_1 && 0 <= 1 && true, word_index = n_i_0; SET(new_value, 0); has_store = 1; at_line = 13)
  :: else -> skip
  fi
}

inline local_lines() {
  do
  :: at_line == 0 -> FORGET(i_0); FORGET(p_1); FORGET(b_2); place = 0; at_line = ARRIVED
  :: at_line == 1 -> note(BEGIN_DEED)
  :: at_line == 2 -> KEEP(i_0); FORGET(p_1); FORGET(b_2); place = 2; at_line = ARRIVED
  :: at_line == 3 -> KEEP(i_0); FORGET(p_1); FORGET(b_2); place = 3; at_line = ARRIVED
  :: at_line == 4 -> note(READY_DEED)
  :: at_line == 5 -> FORGET(i_0); KEEP(p_1); FORGET(b_2); place = 5; at_line = ARRIVED
  :: at_line == 6 -> FORGET(i_0); KEEP(p_1); FORGET(b_2); place = 6; at_line = ARRIVED
  :: at_line == 7 -> note(ENTER_DEED)
  :: at_line == 8 -> FORGET(i_0); FORGET(p_1); FORGET(b_2); place = REST; at_line = ARRIVED
  :: at_line == 9 -> FORGET(i_0); FORGET(p_1); FORGET(b_2); place = 9; at_line = ARRIVED
  :: at_line == 10 -> KEEP(i_0); FORGET(p_1); FORGET(b_2); place = 10; at_line = ARRIVED
  :: at_line == 11 -> KEEP(i_0); KEEP(p_1); FORGET(b_2); place = 11; at_line = ARRIVED
  :: at_line == 12 -> KEEP(i_0); FORGET(p_1); FORGET(b_2); place = 12; at_line = ARRIVED
  :: at_line == 13 -> note(LEAVE_DEED)
  :: at_line == 14 -> FORGET(i_0); FORGET(p_1); FORGET(b_2); place = REST; at_line = ARRIVED
  :: else -> break
  od;
  skip
}

inline store() {
  if
  :: at_line != LEFT_OUT && has_store && from_line == 2 -> w_busy_1[word_index] = new_value
  :: at_line != LEFT_OUT && has_store && from_line == 3 -> w_tail_0[word_index] = new_value
  :: at_line != LEFT_OUT && has_store && from_line == 5 -> w_before_3[word_index] = new_value
  :: at_line != LEFT_OUT && has_store && from_line == 11 -> w_mine_2[word_index] = new_value
  :: at_line != LEFT_OUT && has_store && from_line == 12 -> w_busy_1[word_index] = new_value
  :: else -> skip
  fi
}

"#,
    r#"  int p_i_0;
  int p_p_1;
  int p_b_2;
"#,
    r#"  :: d_step { IS_IDLE && phase[_pid] != INSIDE -> START(LOCK) }
  :: d_step { IS_IDLE && phase[_pid] == INSIDE -> START(UNLOCK) }
"#,
];

/// A model of these parts.
pub fn whole_model(alloc: Global, parts: &ModelParts) -> Result<String, AllocError> {
    let mut whole = String::from_str(alloc, parts[0])?;
    whole.push_str(MODEL_HEAD)?;
    whole.push_str(parts[1])?;
    whole.push_str(MODEL_PROCESS)?;
    whole.push_str(parts[2])?;
    whole.push_str(MODEL_MOVES)?;
    whole.push_str(parts[3])?;
    whole.push_str(MODEL_END)?;
    Ok(whole)
}
